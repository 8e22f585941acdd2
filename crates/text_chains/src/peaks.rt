//! The most words of a thread: each function is looked at once for each global that has a combine
//! function, after those that it calls or starts. All elements of an array have the same function, and
//! are named by the same threads.

ghost use Rattle.std.specs.Prelude.{◌≡◌, ◌-◌, ◌^◌, ℕ, min, max, Some, None, IfOk};
ghost use Rattle.forec_tree.specs.Plain.{plain_global};
ghost use Rattle.forec_tree.specs.Faults.{Leads};
ghost use Rattle.forec_tree.specs.Pauses.{callees_of};
ghost use Rattle.loop_check.specs.Views.{indexed_text};
ghost use Rattle.forec_check.specs.Faultless.{Faultless};
ghost use Rattle.text_kernel.specs.Bindings.{number_among, is_int_function};
ghost use Rattle.text_kernel.specs.Items.{globals_of, variable_items};
ghost use Rattle.text_kernel.specs.Kernels.{kernel_of, main_id};
ghost use Rattle.text_chains.specs.Tallies as of;
ghost use Rattle.text_chains.specs.Peaks as peaks;
ghost use Rattle.text_chains.specs.Views.{value_by, SettlesTallies, HasTallies};

use crate::bodies::all;
use crate::tally::{Tally, Weights, known_of, nothing, started, value};
use crate::terms::hides_params;
use forec_base::{Labels, OutOfMemory};
use forec_tree::Global as Declared;
use loop_check::{find_function, order, put, read_calls};
use lower_names::Globals;
use std::alloc::Global;

/// What the text of the function of a number brings.
fn function_tally(w: &Weights<'_>, table: &[Tally], id: u32) -> Tally
    ensures { result ≡ of.tally_step w.now.variable w.now.array (value_by w.now) w.now.worth
        (indexed_text w.now.globals.now.index) (of.tally_at table.now) id }
{
    match find_function(&w.globals.index, id) {
        None => nothing(),
        Some(function) => {
            let hidden = hides_params(w, function.params.as_slice());
            all(w, table, hidden, function.body.as_slice())
        }
    }
}

/// What each function brings, each after those that it calls or starts.
fn table_of(alloc: Global, w: &Weights<'_>, order: &[u32]) -> Result<Vec<Tally>, OutOfMemory>
    requires { SettlesTallies (indexed_text w.now.globals.now.index) order.now }
    ensures { IfOk result (λ table. HasTallies w.now table.items) }
{
    let mut table = Vec::new(alloc);
    for f in order {
        let known = function_tally(w, &table, *f);
        put(&mut table, *f, known, nothing())?;
    }
    Ok(table)
}

/// The most words of a thread of a program that starts with the function of a name, with the combine
/// function of one variable.
fn peak(alloc: Global, w: &Weights<'_>, order: &[u32], first: u32) -> Result<u64, OutOfMemory>
    requires { SettlesTallies (indexed_text w.now.globals.now.index) order.now }
    ensures { IfOk result (λ n. n ≡ peaks.peak_by w.now.variable w.now.array (value_by w.now) w.now.worth
        (indexed_text w.now.globals.now.index) first) }
{
    let table = table_of(alloc, w, order)?;
    Ok(started(0, known_of(&table, first)).peak)
}

/// The same with the combine function of a global; nothing where it has none.
fn peak_with(
    alloc: Global,
    w: &Weights<'_>,
    order: &[u32],
    first: u32,
    global: &Declared,
) -> Result<u64, OutOfMemory>
    requires { SettlesTallies (indexed_text w.now.globals.now.index) order.now }
    ensures { IfOk result (λ n. n ≡ peaks.peak_of (value_by w.now) (indexed_text w.now.globals.now.index) first
        (plain_global global.now)) }
{
    match global.combine {
        None => Ok(0),
        Some(combine) => {
            let own = Weights {
                globals: w.globals,
                values: w.values,
                variable: global.name.id,
                array: global.stated_length().is_some(),
                worth: value(w, combine.with.id),
            };
            peak(alloc, &own, order, first)
        }
    }
}

/// The same with the combine function of each of some globals, the greatest of them.
fn peaks_with(
    alloc: Global,
    w: &Weights<'_>,
    order: &[u32],
    first: u32,
    globals: &[&Declared],
) -> Result<u64, OutOfMemory>
    requires { SettlesTallies (indexed_text w.now.globals.now.index) order.now }
    ensures { IfOk result (λ n. n ≡ peaks.peak_over (value_by w.now) (indexed_text w.now.globals.now.index) first
        (globals_of globals.now)) }
{
    let mut most: u64 = 0;
    for global in globals {
        most = most.max(peak_with(alloc, w, order, first, global)?);
    }
    Ok(most)
}

/// The most words of a thread of a program that breaks no rule and starts with the function of a name, with
/// those along the chains of calls of the int functions that it can call, combine functions among them.
/// `values` has the words along these chains, by the number of the int function where they begin, and
/// `variables` all globals that aren't constants. Nothing is inlined for it.
pub fn most_words(
    alloc: Global,
    globals: &Globals<'_>,
    names: &Labels,
    variables: &[&Declared],
    values: &[u64],
    first: u32,
) -> Result<u64, OutOfMemory>
    requires free { (f : ℕ) → Leads (callees_of (indexed_text globals.now.index)) f f → ⊥ }
    requires faultless { Faultless (indexed_text globals.now.index) names.now }
    requires first { first ≡ main_id (indexed_text globals.now.index) names.now }
    requires variables { globals_of variables.now ≡ variable_items (indexed_text globals.now.index) }
    ensures { IfOk result (λ n. n ≡ min (peaks.most_words (of.table_value values.now)
        (kernel_of (indexed_text globals.now.index) names.now)) (2 ^ 64 - 1)) }
{
    let calls = read_calls(alloc, &globals.index)?;
    let order = order(alloc, &calls.functions, &calls.lists)?;
    let none = Weights {
        globals,
        values,
        variable: 0,
        array: false,
        worth: 0,
    };
    let most = peak(alloc, &none, &order, first)?;
    let with = peaks_with(alloc, &none, &order, first, variables)?;
    Ok(most.max(with))
}
