ghost use Rattle.std.specs.Prelude.{◌≡◌};
ghost use Rattle.type_twice.specs.Twice as spec;

use swift_lex::Word;

fn is_built_in_type(name: &Word) -> bool
    ensures { result ≡ spec.is_built_in_type name.now }
{
    name.is(b"Int") || name.is(b"Bool") || name.is(b"String")
}

fn is_protocol(name: &Word) -> bool
    ensures { result ≡ spec.is_protocol name.now }
{
    name.is(b"View")
        || name.is(b"App")
        || name.is(b"Scene")
        || name.is(b"PreferenceKey")
        || name.is(b"Identifiable")
        || name.is(b"Equatable")
        || name.is(b"Hashable")
        || name.is(b"CaseIterable")
        || name.is(b"PreviewProvider")
}

fn is_container(name: &Word) -> bool
    ensures { result ≡ spec.is_container name.now }
{
    name.is(b"Button")
        || name.is(b"Toggle")
        || name.is(b"VStack")
        || name.is(b"HStack")
        || name.is(b"ZStack")
        || name.is(b"Group")
        || name.is(b"ForEach")
        || name.is(b"WindowGroup")
}

fn is_leaf(name: &Word) -> bool
    ensures { result ≡ spec.is_leaf name.now }
{
    name.is(b"Text")
        || name.is(b"Image")
        || name.is(b"Spacer")
        || name.is(b"Rectangle")
        || name.is(b"EmptyView")
}

fn is_built_in_word(name: &Word) -> bool
    ensures { result ≡ spec.is_built_in_word name.now }
{
    name.is(b"abs")
        || name.is(b"min")
        || name.is(b"max")
        || name.is(b"EnvironmentValues")
        || name.is(b"HorizontalAlignment")
        || name.is(b"VerticalAlignment")
}

/// Whether a program may not declare this name.
pub fn is_built_in(name: &Word) -> bool
    ensures { result ≡ spec.is_built_in name.now }
{
    is_built_in_type(name)
        || is_protocol(name)
        || is_container(name)
        || is_leaf(name)
        || is_built_in_word(name)
}
