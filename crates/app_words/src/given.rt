// What clap found, as plain data.
ghost use Rattle.std.specs.Prelude.{◌≡◌, Some, option_map};
ghost use Rattle.clap.specs.Words.{rows_of, found_of, first_of};
ghost use Rattle.app_words.specs.Given.{given_by, given_value, has_true};

use clap::ArgMatches;

/// The values and the flags that the words give.
#[derive(Clone, Copy)]
pub(crate) struct Given<'a> {
    pub app: Option<&'a str>,
    pub script: Option<&'a str>,
    pub size: Option<&'a str>,
    pub check: Option<&'a str>,
    pub workload: Option<&'a str>,
    pub trace: bool,
    pub state: bool,
    pub layout: bool,
    pub prefs: bool,
}

fn value<'a>(matches: &ArgMatches<'a>, name: &str) -> Option<&'a str>
    ensures { option_map (λ s. s.now) result ≡ first_of name.now (rows_of (found_of matches.now)) }
{
    matches.get_str(name)
}

fn flag(matches: &ArgMatches<'_>, name: &str) -> bool
    ensures { result ≡ has_true (first_of name.now (rows_of (found_of matches.now))) }
{
    match value(matches, name) {
        Some(text) => text == "true",
        None => false,
    }
}

pub(crate) fn given_in<'a>(matches: &ArgMatches<'a>) -> Given<'a>
    ensures { given_value result ≡ given_by (rows_of (found_of matches.now)) }
{
    Given {
        app: value(matches, "app"),
        script: value(matches, "script"),
        size: value(matches, "size"),
        check: value(matches, "check"),
        workload: value(matches, "workload"),
        trace: flag(matches, "trace"),
        state: flag(matches, "state"),
        layout: flag(matches, "layout"),
        prefs: flag(matches, "prefs"),
    }
}
