//! Scopes, and the declaration that a name means in one.

ghost use Rattle.std.specs.Prelude.{◌≡◌, Some};
ghost use Rattle.forec_tree.specs.Plain.{plain_global, plain_item};
ghost use Rattle.forec_tree.specs.Scopes.{find_item, item_meaning};
ghost use Rattle.forec_tree.specs.Scopes as scopes;
ghost use Rattle.loop_check.specs.Views.{indexed_text};
ghost use Rattle.program_walk.specs.Views.{scope_of};

pub mod declaration;
pub mod declarations;
pub mod scope;

use crate::scopes::scope::Scope;
use forec_tree::{Global, Item, Meaning};
use loop_check::Index;

fn is_array(global: &Global) -> bool
    ensures { result ≡ scopes.is_array (scopes.stated_length (plain_global global.now)) }
{
    global.stated_length().is_some()
}

fn meaning_of_item(item: &Item) -> Meaning
    ensures { result ≡ item_meaning (Some (plain_item item.now)) }
{
    match item {
        Item::Global { global } => Meaning::Global {
            kind: global.kind,
            array: is_array(global),
        },
        Item::Function { function } => Meaning::Function {
            gives: function.gives,
            params: function.params.len(),
        },
    }
}

/// What a name means in the global scope.
pub fn global_meaning(index: &Index<'_>, id: u32) -> Meaning
    ensures { result ≡ item_meaning (find_item id (indexed_text index.now)) }
{
    match index.find(id) {
        None => Meaning::Unknown,
        Some(item) => meaning_of_item(item),
    }
}

/// What a name means in a scope.
pub fn meaning(index: &Index<'_>, scope: &Scope, id: u32) -> Meaning
    ensures { result ≡ scopes.meaning (indexed_text index.now) (scope_of scope.now) id }
{
    match scope.array_of(id) {
        Some(array) => Meaning::Local { array },
        None => global_meaning(index, id),
    }
}
