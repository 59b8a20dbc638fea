use core_means::Reads;
use environment::EnvMap;
use identity_path::Step;
use sv_items::{Boxed, Items};
use sv_value::{Value, Values};
use view_nodes::{Custom, Label, Reader};

/// What a unit keeps of the last run of its body, besides its inputs and the description.
#[derive(Drop)]
pub struct LastRun {
    /// The environment of its view. That of the app is the environment at the root.
    pub environment: EnvMap,
    /// What the run looked up.
    pub reads: Reads,
}

/// What a preference reader keeps of the last run of its builder.
#[derive(Drop)]
pub struct ReaderRun {
    /// The preference of the content, or the default of the key.
    pub preference: Value,
    /// The environment where the reader stands, which the views of its builder get.
    pub around: EnvMap,
    pub last: LastRun,
}

/// A node of a tree, with the steps by which its path goes on from that of the node that holds it.
#[derive(Drop)]
pub enum Built {
    /// A view that is built in, a branch, a `ForEach`, an item or a modifier, and what it holds.
    Plain {
        steps: Items<Step>,
        label: Label,
        /// What was found as the node was built and is no part of the description. For `onPreferenceChange` it is the
        /// preference of the content, and then the default of the key.
        found: Values,
        parts: Items<Built>,
    },
    /// A custom view, and what its body gave.
    Custom {
        steps: Items<Step>,
        custom: Custom,
        last: LastRun,
        body: Items<Built>,
    },
    /// A preference reader: its content, and then what its builder gave.
    Reader {
        steps: Items<Step>,
        reader: Reader,
        content: Boxed<Built>,
        run: ReaderRun,
        body: Items<Built>,
    },
}

/// The app as it is built.
#[derive(Drop)]
pub struct BuiltApp {
    pub last: LastRun,
    /// The root views.
    pub roots: Items<Built>,
}
