//! From the values of words to what they ask for.

ghost use Rattle.std.specs.Prelude.{◌≡◌, ◌≤◌, map, string_bytes, option_map, None, Some, Err, IfOk};
ghost use Rattle.command_words.specs.CommandLine.{plain_values};
ghost use Rattle.command_words.specs.Requests as asked;
ghost use Rattle.command_words.specs.declared.fault.WordsFault.TheVariants as fault;

use crate::fault::WordsFault;
use crate::matching::values;
use crate::number::{in_range, or_usual};
use crate::request::{
    Budget, Command, DEFAULT_BUDGET, MAX_ORDER, MAX_TRACES, MAX_WORKLOAD, Placing, Request, Running,
};
use crate::values::Values;
use forec_base::{MAX_BUDGET, MAX_CORES};
use std::alloc::Global;

/// Where threads run.
fn placing<'a>(values: &Values<'a>) -> Option<Placing<'a>>
    ensures { option_map asked.plain_placing result ≡ asked.placing_of (plain_values values.now) }
{
    let cores = or_usual(values.cores, 1, 1, u64::from(MAX_CORES))?;
    Some(Placing {
        cores: cores as u32,
        list: values.place,
    })
}

/// How many units a tick may have: the number of the word, or the program's bound where the word is `bound`.
fn budget(word: Option<&str>) -> Option<Budget>
    ensures { result ≡ asked.budget_or (option_map (λ s. s.now) word.entry) }
{
    match word {
        None => Some(Budget::Units {
            most: DEFAULT_BUDGET,
        }),
        Some("bound") => Some(Budget::Bound),
        Some(word) => {
            let most = in_range(word, 1, MAX_BUDGET)?;
            Some(Budget::Units { most })
        }
    }
}

/// How a program runs.
fn running<'a>(values: &Values<'a>) -> Option<Running<'a>>
    ensures { option_map asked.plain_running result ≡ asked.running_of (plain_values values.now) }
{
    if values.order.is_some() {
        return None;
    }
    let placing = placing(values)?;
    let budget = budget(values.budget)?;
    Some(Running { placing, budget })
}

/// Where threads run, for a command that runs nothing.
fn placing_alone<'a>(values: &Values<'a>) -> Option<Placing<'a>>
    ensures { option_map asked.plain_placing result ≡ asked.placing_alone_of (plain_values values.now) }
{
    if values.budget.is_some() || values.order.is_some() {
        return None;
    }
    placing(values)
}

/// How a program is rewritten.
fn explaining<'a>(values: &Values<'a>) -> Option<Command<'a>>
    ensures { option_map asked.plain_command result ≡ asked.explaining_of (plain_values values.now) }
{
    if values.cores.is_some() || values.place.is_some() {
        return None;
    }
    let budget = budget(values.budget)?;
    let order = or_usual(values.order, 0, 0, MAX_ORDER)? as u32;
    Some(Command::Explain { budget, order })
}

/// Whether no option with a value is given.
fn is_plain(values: &Values<'_>) -> bool
    ensures { result ≡ asked.has_no_options (plain_values values.now) }
{
    values.cores.is_none()
        && values.place.is_none()
        && values.budget.is_none()
        && values.order.is_none()
}

/// Whether no option is given at all.
fn is_bare(values: &Values<'_>) -> bool
    ensures { result ≡ asked.is_bare (plain_values values.now) }
{
    is_plain(values) && !values.fold
}

/// The command of a name on a program.
fn command<'a>(name: &str, values: &Values<'a>) -> Option<Command<'a>>
    ensures { option_map asked.plain_command result ≡ asked.command_of name.now (plain_values values.now) }
{
    match name {
        "run" => {
            let running = running(values)?;
            Some(Command::Run { running })
        }
        "threads" => {
            let placing = placing_alone(values)?;
            Some(Command::Threads { placing })
        }
        "explain" => explaining(values),
        "wave" if !values.fold => {
            let running = running(values)?;
            Some(Command::Wave { running })
        }
        "check" if is_bare(values) => Some(Command::Check),
        "code" if is_plain(values) => Some(Command::Code),
        _ => None,
    }
}

/// A workload of so many threads as a word says.
fn workload<'a>(number: &str, values: &Values<'a>) -> Option<Request<'a>>
    ensures { option_map asked.plain_request result ≡ asked.workload_of number.now (plain_values values.now) }
{
    if values.fold {
        return None;
    }
    let threads = in_range(number, 1, MAX_WORKLOAD)? as u32;
    let running = running(values)?;
    Some(Request::Workload { threads, running })
}

/// The dump of a name, which is told with no option.
fn dump<'a>(dump: &'a str, values: &Values<'a>) -> Option<Request<'a>>
    ensures { option_map asked.plain_request result ≡ asked.dump_of dump.entry.now (plain_values values.now) }
{
    if is_bare(values) {
        Some(Request::Dump { dump })
    } else {
        None
    }
}

/// A program whose exchanges are logged.
fn logging<'a>(program: &'a str, values: &Values<'a>) -> Option<Request<'a>>
    ensures { option_map asked.plain_request result ≡ asked.logging_of program.entry.now (plain_values values.now) }
{
    if values.fold {
        return None;
    }
    let running = running(values)?;
    Some(Request::Log { program, running })
}

/// The command of a name on the text of a program.
fn on_text<'a>(name: &str, program: &'a str, values: &Values<'a>) -> Option<Request<'a>>
    ensures { option_map asked.plain_request result
        ≡ asked.text_request_of name.now program.entry.now (plain_values values.now) }
{
    let command = command(name, values)?;
    Some(Request::Text {
        program,
        command,
        fold: values.fold,
    })
}

/// Whether no option but a budget is given.
fn is_budget_alone(values: &Values<'_>) -> bool
    ensures { result ≡ asked.has_budget_alone (plain_values values.now) }
{
    values.cores.is_none() && values.place.is_none() && values.order.is_none() && !values.fold
}

/// Whether there are 1 to 64 words behind the program.
fn are_traces(values: &Values<'_>) -> bool
    ensures { result ≡ asked.has_traces (plain_values values.now) }
{
    0 < values.more.len() && values.more.len() <= MAX_TRACES
}

/// A program over traces, with no option but a budget.
fn traces<'a>(program: &'a str, values: Values<'a>) -> Option<Request<'a>>
    ensures { option_map asked.plain_request result ≡ asked.traces_of program.entry.now (plain_values values.entry) }
{
    if is_budget_alone(&values) && are_traces(&values) {
        let budget = budget(values.budget)?;
        Some(Request::Traces {
            program,
            traces: values.more,
            budget,
        })
    } else {
        None
    }
}

/// A program that is held to a log, the one word behind it, with no option but a budget.
fn replaying<'a>(program: &'a str, values: &Values<'a>) -> Option<Request<'a>>
    ensures { option_map asked.plain_request result
        ≡ asked.replaying_of program.entry.now (plain_values values.now).more (plain_values values.now) }
{
    match values.more.as_slice() {
        [log] if is_budget_alone(values) => {
            let budget = budget(values.budget)?;
            Some(Request::Replay {
                program,
                log: *log,
                budget,
            })
        }
        _ => None,
    }
}

/// What a command asks for that takes no word behind the program.
fn alone<'a>(name: &str, program: &'a str, values: &Values<'a>) -> Option<Request<'a>>
    ensures { option_map asked.plain_request result
        ≡ asked.request_alone name.now program.entry.now (plain_values values.now) }
{
    match name {
        "gen" => workload(program, values),
        "unwave" => dump(program, values),
        "log" => logging(program, values),
        _ => on_text(name, program, values),
    }
}

/// What the values of words ask for.
fn request<'a>(values: Values<'a>) -> Option<Request<'a>>
    ensures { option_map asked.plain_request result ≡ asked.request_by (plain_values values.entry) }
{
    let name = values.command?;
    let program = values.program?;
    if name == "farm" {
        return traces(program, values);
    }
    if name == "replay" {
        return replaying(program, &values);
    }
    if values.more.is_empty() {
        alone(name, program, &values)
    } else {
        None
    }
}

/// What the words ask for. They are those after the program's own name.
///
/// # Errors
///
/// `Usage` exactly where they ask for nothing: where `clap` refuses them, the command is none, an option isn't the
/// command's, or a number is out of its range. Or out of memory.
pub fn read_words<'a>(alloc: Global, words: &'a [String]) -> Result<Request<'a>, WordsFault>
    ensures request { IfOk result (λ r. asked.request_of (map string_bytes words.entry.now)
        ≡ Some (asked.plain_request r)) }
    ensures usage { result ≡ Err fault.Usage → asked.request_of (map string_bytes words.entry.now) ≡ None }
{
    let values = values(alloc, words)?;
    match request(values) {
        Some(request) => Ok(request),
        None => Err(WordsFault::Usage),
    }
}
