ghost use Rattle.std.specs.Prelude.{◌≡◌};
ghost use Rattle.std.specs.Iterator.{YieldsFirstRef, item_count};

use identity_path::Path;
use std::marker::Model;

/// The paths of the units of a tree, in tree order. Contracts see the list of those that are left.
#[derive(Drop)]
pub struct Bodies<'a> {
    left: &'a [Path],
}

impl<'a> Model for Bodies<'a> {
    ghost use Rattle.std.specs.Prelude.{List};
    ghost use Rattle.std.specs.Coded.{coded_list};
    ghost use Rattle.identity_path.specs.declared.step.Step.{Step};
    ghost use Rattle.identity_path.specs.contracts.step.Step as one;

    ghost Value = { List (List Step) };

    ghost coded = { coded_list (coded_list one.the_row.coded) };

    ghost view = { λ b. b.left.now };
}

impl<'a> Bodies<'a> {
    pub(crate) fn over(left: &'a [Path]) -> Bodies<'a>
        ensures { result ≡ left.now }
    {
        Bodies { left }
    }
}

impl<'a> Iterator for Bodies<'a> {
    type Item = &'a Path;

    ghost next_gives = { YieldsFirstRef (λ left. left) };

    ghost remaining = { item_count (λ left. left) };

    fn next(&mut self) -> Option<&'a Path> {
        let (path, left) = self.left.split_first()?;
        self.left = left;
        Some(path)
    }
}

/// The paths of the custom views of a tree, in tree order. Contracts see the list of those that are left.
#[derive(Drop)]
pub struct Live<'a> {
    left: &'a [Path],
}

impl<'a> Model for Live<'a> {
    ghost use Rattle.std.specs.Prelude.{List};
    ghost use Rattle.std.specs.Coded.{coded_list};
    ghost use Rattle.identity_path.specs.declared.step.Step.{Step};
    ghost use Rattle.identity_path.specs.contracts.step.Step as one;

    ghost Value = { List (List Step) };

    ghost coded = { coded_list (coded_list one.the_row.coded) };

    ghost view = { λ b. b.left.now };
}

impl<'a> Live<'a> {
    pub(crate) fn over(left: &'a [Path]) -> Live<'a>
        ensures { result ≡ left.now }
    {
        Live { left }
    }
}

impl<'a> Iterator for Live<'a> {
    type Item = &'a Path;

    ghost next_gives = { YieldsFirstRef (λ left. left) };

    ghost remaining = { item_count (λ left. left) };

    fn next(&mut self) -> Option<&'a Path> {
        let (path, left) = self.left.split_first()?;
        self.left = left;
        Some(path)
    }
}
