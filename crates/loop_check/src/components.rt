//! The strongly connected components of the graph of calls, by Tarjan's walk ("Depth-first search and
//! linear graph algorithms", 1972). Nothing is proved of what it finds: who uses it checks what is
//! needed, which takes one look at each call.

use crate::numbered::value_at;
use forec_base::OutOfMemory;
use std::alloc::Global;

/// The functions by components, those of a component after those that it calls, and for each function
/// the number of its component from 1; a call leads to no component of a higher number.
#[derive(Drop)]
pub struct Components {
    pub functions: Vec<u32>,
    pub ranks: Vec<usize>,
}

/// A function on the way to the one that is looked at, and how many of its calls were followed.
#[derive(Clone, Copy)]
struct Visit {
    function: u32,
    followed: usize,
}

/// A walk through the graph. `numbers` count the functions as they are first seen, from 1; `lows` have
/// the least number to which a function is known to lead; `open` are the functions that were seen and
/// whose component is not known yet.
#[derive(Drop)]
struct Walk {
    functions: Vec<u32>,
    ranks: Vec<usize>,
    numbers: Vec<usize>,
    lows: Vec<usize>,
    way: Vec<Visit>,
    open: Vec<u32>,
    seen: usize,
    components: usize,
}

fn at(table: &[usize], f: u32) -> usize {
    value_at(table, f, 0)
}

fn put(table: &mut [usize], f: u32, value: usize) {
    let place = f as usize;
    if place < table.len() {
        table[place] = value;
    }
}

fn call(calls: &[Vec<u32>], visit: Visit) -> Option<u32> {
    match calls.get(visit.function as usize) {
        None => None,
        Some(list) => match list.get(visit.followed) {
            None => None,
            Some(g) => Some(*g),
        },
    }
}

impl Walk {
    fn new(alloc: Global, length: usize) -> Result<Walk, OutOfMemory> {
        Ok(Walk {
            functions: Vec::new(alloc),
            ranks: vec![in alloc; 0; length]?,
            numbers: vec![in alloc; 0; length]?,
            lows: vec![in alloc; 0; length]?,
            way: Vec::new(alloc),
            open: Vec::new(alloc),
            seen: 0,
            components: 0,
        })
    }

    /// Comes to a function for the first time.
    fn enter(&mut self, f: u32) -> Result<(), OutOfMemory> {
        self.seen = self.seen.saturating_add(1);
        put(&mut self.numbers, f, self.seen);
        put(&mut self.lows, f, self.seen);
        self.open.push(f)?;
        self.way.push(Visit {
            function: f,
            followed: 0,
        })?;
        Ok(())
    }

    /// A function leads to one of this number.
    fn lower(&mut self, f: u32, low: usize) {
        if low < at(&self.lows, f) {
            put(&mut self.lows, f, low);
        }
    }

    /// Follows a call.
    fn follow(&mut self, f: u32, g: u32) -> Result<(), OutOfMemory> {
        let number = at(&self.numbers, g);
        if number == 0 {
            return self.enter(g);
        }
        if at(&self.ranks, g) == 0 {
            self.lower(f, number);
        }
        Ok(())
    }

    /// The functions down to this one are a component.
    fn close(&mut self, f: u32) -> Result<(), OutOfMemory> {
        self.components = self.components.saturating_add(1);
        for _ in 0..self.open.len() {
            if let Some(g) = self.open.pop() {
                put(&mut self.ranks, g, self.components);
                self.functions.push(g)?;
                if g == f {
                    return Ok(());
                }
            }
        }
        Ok(())
    }

    /// Goes back from a function whose calls were all followed.
    fn leave(&mut self, f: u32) -> Result<(), OutOfMemory> {
        let low = at(&self.lows, f);
        if let Some(visit) = self.way.last() {
            let caller = visit.function;
            self.lower(caller, low);
        }
        if low == at(&self.numbers, f) {
            return self.close(f);
        }
        Ok(())
    }

    /// Follows the next call of a function, which was taken from the way, or goes back from it.
    fn step(&mut self, calls: &[Vec<u32>], visit: Visit) -> Result<(), OutOfMemory> {
        let Some(g) = call(calls, visit) else {
            return self.leave(visit.function);
        };
        self.way.push(Visit {
            function: visit.function,
            followed: visit.followed.saturating_add(1),
        })?;
        self.follow(visit.function, g)
    }

    /// Walks from a function as far as it leads, in so many steps at most.
    fn explore(&mut self, calls: &[Vec<u32>], f: u32, most: usize) -> Result<(), OutOfMemory> {
        self.enter(f)?;
        for _ in 0..most {
            match self.way.pop() {
                None => return Ok(()),
                Some(visit) => self.step(calls, visit)?,
            }
        }
        Ok(())
    }
}

/// How many functions and calls there are, which is how many steps a walk takes.
fn size(functions: &[u32], calls: &[Vec<u32>]) -> usize {
    let mut total = functions.len();
    for list in calls {
        total = total.saturating_add(list.len()).saturating_add(1);
    }
    total
}

/// Walks through the graph of calls once.
pub fn find_components(
    alloc: Global,
    functions: &[u32],
    calls: &[Vec<u32>],
) -> Result<Components, OutOfMemory> {
    let mut walk = Walk::new(alloc, calls.len())?;
    let most = size(functions, calls);
    for f in functions {
        if at(&walk.numbers, *f) == 0 {
            walk.explore(calls, *f, most)?;
        }
    }
    Ok(Components {
        functions: walk.functions,
        ranks: walk.ranks,
    })
}
