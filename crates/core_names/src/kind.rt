ghost use Rattle.std.specs.Prelude.{◌≡◌};
ghost use Rattle.core_names.specs.Spelled.{is_of};

use swift_core::SignatureForm;

/// The members that a value or a state shows by their names.
#[derive(Clone, Copy)]
pub enum NameKind {
    /// A stored property of a data struct, or an input of a view.
    Field,
    /// A case of an enum.
    Case,
    /// A state slot of a view.
    Slot,
}

/// Whether a member of this form is of the kind.
pub fn is_of(kind: NameKind, form: &SignatureForm) -> bool
    ensures value { result ≡ is_of kind form.now }
{
    match kind {
        NameKind::Field => match form {
            SignatureForm::Stored(..) => true,
            _ => false,
        },
        NameKind::Case => match form {
            SignatureForm::Case(_) => true,
            _ => false,
        },
        NameKind::Slot => match form {
            SignatureForm::State(..) => true,
            _ => false,
        },
    }
}
