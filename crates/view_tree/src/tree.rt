ghost use Rattle.std.specs.Prelude.{◌≡◌, Some, None, IfOk};
ghost use Rattle.std.specs.Option.{option_copied};
ghost use Rattle.view_tree.specs.Trees.{IsTree, unit_paths, live_paths};

use crate::built::BuiltApp;
use crate::paths::{Bodies, Live};
use crate::standing::{standing_of, units_of, views_of};
use identity_path::Path;
use std::alloc::{AllocError, Global};
use std::marker::Model;
use sv_items::Items;

/// A tree, which is empty before the launch. No two views of it have one path, no two modifiers one path and number, it counts
/// at most 20,000, and it is at most 128 deep. Contracts see the app as it is built, or None.
#[derive(Drop)]
pub struct Tree {
    app: Option<BuiltApp>,
    units: Items<Path>,
    views: Items<Path>,
}

impl Model for Tree {
    ghost use Rattle.std.specs.Prelude.{◌≡◌, Option};
    ghost use Rattle.std.specs.Coded.{coded_option};
    ghost use Rattle.view_tree.specs.declared.built.BuiltApp.{BuiltApp};
    ghost use Rattle.view_tree.specs.contracts.built.BuiltApp as one;

    ghost Value = { Option BuiltApp };

    ghost coded = { coded_option one.the_row.coded };

    ghost use Rattle.view_tree.specs.Trees.{IsTree, unit_paths, live_paths};

    ghost view = { λ t. t.app };

    ghost invariant = { λ t. IsTree t.app × ((t.units ≡ unit_paths t.app) × (t.views ≡ live_paths t.app)) };
}

#[derive(Drop)]
struct TreePaths {
    units: Items<Path>,
    views: Items<Path>,
}

fn paths_of(alloc: Global, app: &BuiltApp) -> Result<TreePaths, AllocError>
    ensures units { IfOk result (λ l. l.units ≡ unit_paths (Some app.now)) }
    ensures views { IfOk result (λ l. l.views ≡ live_paths (Some app.now)) }
{
    let all = standing_of(alloc, app)?;
    let units = units_of(alloc, all.as_slice())?;
    let views = views_of(alloc, all.as_slice())?;
    Ok(TreePaths { units, views })
}

impl Tree {
    /// The empty tree, which takes no memory.
    pub fn empty(alloc: Global) -> Tree
        ensures value { result ≡ None }
    {
        Tree {
            app: None,
            units: Items::new(alloc),
            views: Items::new(alloc),
        }
    }

    /// The tree of an app. `BuiltApp::is_tree` is the test of the condition.
    pub fn new(alloc: Global, app: BuiltApp) -> Result<Tree, AllocError>
        requires tree { IsTree (Some app) }
        ensures value { IfOk result (λ t. t ≡ Some app) }
    {
        let TreePaths { units, views } = paths_of(alloc, &app)?;
        Ok(Tree {
            app: Some(app),
            units,
            views,
        })
    }

    /// Does nothing: its clause says what is known of every tree.
    pub fn rules(&self)
        ensures tree { IsTree self.now }
    {
        let _app = &self.app;
    }

    /// The app as it is built. None where the tree is empty.
    pub fn app(&self) -> Option<&BuiltApp>
        ensures value { option_copied result ≡ self.now }
    {
        self.app.as_ref()
    }

    /// The paths of the units, in tree order: that of the app first, and then those of the custom views and of the preference
    /// readers. A reader's unit stands where its builder does, behind the content.
    pub fn bodies(&self) -> Bodies<'_>
        ensures paths { result ≡ unit_paths self.now }
    {
        Bodies::over(self.units.as_slice())
    }

    /// The paths of the custom views, in tree order.
    pub fn live(&self) -> Live<'_>
        ensures paths { result ≡ live_paths self.now }
    {
        Live::over(self.views.as_slice())
    }

    /// An equal tree.
    pub fn copy(&self) -> Result<Tree, AllocError>
        ensures value { IfOk result (λ t. t ≡ self.now) }
    {
        let alloc = self.units.allocator();
        match &self.app {
            None => Ok(Tree::empty(alloc)),
            Some(app) => {
                let app = app.copy(alloc)?;
                Tree::new(alloc, app)
            }
        }
    }
}
