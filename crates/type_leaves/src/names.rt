//! The names of the built-in views.
ghost use Rattle.std.specs.Prelude.{◌≡◌, codes};
ghost use Rattle.view_rules.specs.Forms as forms;

use align_guides::Axis;
use swift_lex::Word;
use view_rules::ViewName;

fn stack_named(w: &Word) -> Option<ViewName>
    ensures value { result ≡ forms.stack_named w.now }
{
    if w.is(b"VStack") {
        Some(ViewName::Stack(Axis::V))
    } else if w.is(b"HStack") {
        Some(ViewName::Stack(Axis::H))
    } else if w.is(b"ZStack") {
        Some(ViewName::Stack(Axis::Z))
    } else if w.is(b"Group") {
        Some(ViewName::Group)
    } else if w.is(b"ForEach") {
        Some(ViewName::ForEach)
    } else {
        None
    }
}

/// The built-in view of this name.
pub fn view_named(w: &Word) -> Option<ViewName>
    ensures value { result ≡ forms.view_named w.now }
{
    if w.is(b"Text") {
        Some(ViewName::Text)
    } else if w.is(b"Image") {
        Some(ViewName::Image)
    } else if w.is(b"Button") {
        Some(ViewName::Button)
    } else if w.is(b"Toggle") {
        Some(ViewName::Toggle)
    } else if w.is(b"Spacer") {
        Some(ViewName::Spacer)
    } else if w.is(b"Rectangle") {
        Some(ViewName::Rectangle)
    } else if w.is(b"EmptyView") {
        Some(ViewName::Empty)
    } else {
        stack_named(w)
    }
}
