// The three forms.
ghost use Rattle.std.specs.Prelude.{◌≡◌, ◌≤◌, IfSome, option_map};
ghost use Rattle.app_words.specs.Forms.{InLimits, IsCanvas, form_by, form_value, is_bare, size_of, size_given};
ghost use Rattle.app_words.specs.Given.{given_value};
ghost use Rattle.app_words.specs.Numbers.{workload_of};

use crate::given::Given;
use crate::number::number;
use align_guides::Size;

/// Which texts follow each frame.
#[derive(Clone, Copy, Debug, PartialEq, Eq)]
pub struct Listings {
    pub trace: bool,
    pub state: bool,
    pub layout: bool,
    pub prefs: bool,
}

/// What the words ask for.
#[derive(Clone, Copy)]
pub enum Form<'a> {
    Run {
        size: Size,
        listings: Listings,
        app: &'a str,
        script: &'a str,
    },
    Check {
        app: &'a str,
    },
    Workload {
        count: u32,
    },
}

fn parse_size(text: &str) -> Option<Size>
    ensures value { result ≡ size_of text.now }
    ensures limits { IfSome result IsCanvas }
{
    let (width, height) = text.split_once('x')?;
    let width = number(width, 3)?;
    let height = number(height, 3)?;
    if 1 <= width && width <= 200 && 1 <= height && height <= 100 {
        Some(Size {
            w: width,
            h: height,
        })
    } else {
        None
    }
}

fn parse_workload(text: &str) -> Option<u32>
    ensures value { result ≡ workload_of text.now }
    ensures limits { IfSome result (λ count. (1 ≤ count) × (count ≤ 3000)) }
{
    let count = number(text, 4)?;
    if 1 <= count && count <= 3000 {
        Some(count)
    } else {
        None
    }
}

fn canvas_size(size: Option<&str>) -> Option<Size>
    ensures limits { IfSome result IsCanvas }
    ensures value { result ≡ size_given (option_map (λ s. s.now) size.entry) }
{
    match size {
        None => Some(Size { w: 80, h: 24 }),
        Some(text) => parse_size(text),
    }
}

fn bare(given: &Given<'_>) -> bool
    ensures { result ≡ is_bare (given_value given.now) }
{
    given.size.is_none() && !given.trace && !given.state && !given.layout && !given.prefs
}

pub(crate) fn form_from<'a>(given: &Given<'a>) -> Option<Form<'a>>
    ensures form { option_map form_value result ≡ form_by (given_value given.now) }
    ensures limits { InLimits (option_map form_value result) }
{
    match (given.check, given.workload, given.app, given.script) {
        (None, None, Some(app), Some(script)) => {
            let size = canvas_size(given.size)?;
            let listings = Listings {
                trace: given.trace,
                state: given.state,
                layout: given.layout,
                prefs: given.prefs,
            };
            Some(Form::Run {
                size,
                listings,
                app,
                script,
            })
        }
        (Some(app), None, None, None) if bare(given) => Some(Form::Check { app }),
        (None, Some(text), None, None) if bare(given) => {
            let count = parse_workload(text)?;
            Some(Form::Workload { count })
        }
        _ => None,
    }
}
