//! Words after the program's name, and the form that they make.
use crate::{Form, form_of};
use std::alloc::{AllocError, Global};
use std::test::Fail;

const CASES: [(&str, &str); 18] = [
    ("a b", "80x24 a b"),
    ("--size 9x3 a b", "9x3 a b"),
    ("a --size=200x100 b --trace", "200x100 a b"),
    ("-- --trace b", "80x24 --trace b"),
    ("--check a", "check a"),
    ("--workload 0007", "workload 7"),
    ("--workload 3000", "workload 3000"),
    ("--workload 3001", "none"),
    ("--workload 00007", "none"),
    ("--size 0x5 a b", "none"),
    ("--size 201x5 a b", "none"),
    ("a", "none"),
    ("--check a b", "none"),
    ("--check a --prefs", "none"),
    ("--trace --trace a b", "none"),
    ("--trace=true a b", "none"),
    ("--help", "none"),
    ("-a b", "none"),
];

fn words(alloc: Global, text: &str) -> Result<Vec<String>, AllocError> {
    let mut words = Vec::new(alloc);
    words.push(String::from_str(alloc, "swiftview")?)?;
    for word in text.split(' ') {
        words.push(String::from_str(alloc, word)?)?;
    }
    Ok(words)
}

fn shown(alloc: Global, form: Option<Form<'_>>) -> Result<String, AllocError> {
    match form {
        None => String::from_str(alloc, "none"),
        Some(
            Form::Run {
                size,
                app,
                script,
                ..
            },
        ) => { format!(in alloc; "{}x{} {app} {script}", size.w, size.h) }
        Some(Form::Check { app }) => format!(in alloc; "check {app}"),
        Some(Form::Workload { count }) => format!(in alloc; "workload {count}"),
    }
}

#[test]
fn makes_forms(rt: HostRuntime) -> Result<(), Fail> {
    let alloc = rt.alloc();
    for (text, want) in CASES {
        let words = words(alloc, text)?;
        let got = shown(alloc, form_of(alloc, words.as_slice())?)?;
        assert_eq!(rt; got.as_str(), want, "at {text}");
    }
    Ok(())
}
