ghost use Rattle.std.specs.Prelude.{◌≡◌, option_copied};
ghost use Rattle.member_forms.specs.Marks as marks;

use swift_ast::{Access, Modifier};
use swift_lex::Word;

/// A modifier or an attribute that is no word of access.
#[derive(Clone, Copy, Debug, PartialEq, Eq)]
pub enum Mark {
    Static,
    Mutating,
    State,
    Binding,
    Environment,
    ViewBuilder,
}

/// Whether this is a word of access.
pub fn is_access(modifier: &Modifier) -> bool
    ensures { result ≡ marks.is_access modifier.now }
{
    match modifier {
        Modifier::Access(_) => true,
        _ => false,
    }
}

/// Whether this is the modifier or the attribute.
pub fn is_mark(modifier: &Modifier, mark: Mark) -> bool
    ensures { result ≡ marks.is_mark mark modifier.now }
{
    match (modifier, mark) {
        (Modifier::Static, Mark::Static) => true,
        (Modifier::Mutating, Mark::Mutating) => true,
        (Modifier::Attribute(a), Mark::State) => a.name.is(b"@State"),
        (Modifier::Attribute(a), Mark::Binding) => a.name.is(b"@Binding"),
        (Modifier::Attribute(a), Mark::Environment) => a.name.is(b"@Environment"),
        (Modifier::Attribute(a), Mark::ViewBuilder) => a.name.is(b"@ViewBuilder"),
        _ => false,
    }
}

/// Whether nothing stands before the member but a word of access at most.
pub fn is_bare(modifiers: &[Modifier]) -> bool
    ensures { result ≡ marks.bare modifiers.now }
{
    match modifiers {
        [] => true,
        [one] => is_access(one),
        _ => false,
    }
}

/// Whether this mark stands before the member, and nothing else but a word of access at most.
pub fn is_marked(modifiers: &[Modifier], mark: Mark) -> bool
    ensures { result ≡ marks.marked mark modifiers.now }
{
    match modifiers {
        [one] => is_mark(one, mark),
        [one, two] => {
            if is_access(one) {
                is_mark(two, mark)
            } else {
                is_mark(one, mark) && is_access(two)
            }
        }
        _ => false,
    }
}

/// Whether the modifier is `private`.
fn is_private_word(modifier: &Modifier) -> bool
    ensures { result ≡ marks.is_private_word modifier.now }
{
    match modifier {
        Modifier::Access(Access::Private) => true,
        _ => false,
    }
}

/// Whether `private` stands before a member. The other words of access restrict nothing.
pub fn is_private(modifiers: &[Modifier]) -> bool
    ensures { result ≡ marks.is_private modifiers.now }
{
    modifiers.iter().any(|modifier| is_private_word(modifier))
}

/// The name in the brackets of an attribute.
fn argument_of(modifier: &Modifier) -> Option<&Word>
    ensures { option_copied result ≡ marks.argument_of modifier.now }
{
    match modifier {
        Modifier::Attribute(attribute) => attribute.argument.as_ref(),
        _ => None,
    }
}

/// The name in `@Environment(\.name)` before a member, where a word of access at most stands beside it.
pub fn environment_key(modifiers: &[Modifier]) -> Option<&Word>
    ensures { option_copied result ≡ marks.environment_key modifiers.now }
{
    match modifiers {
        [one] => argument_of(one),
        [one, two] => match argument_of(one) {
            Some(name) => Some(name),
            None => argument_of(two),
        },
        _ => None,
    }
}
