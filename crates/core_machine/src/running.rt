//! How a thread runs: frame by frame, to the next event.

ghost use Rattle.std.specs.Prelude.{◌≡◌, ◌<◌, Bool, false, true, length, IfSome};
ghost use Rattle.thread_code.specs.Plain.{plain_code};
ghost use Rattle.thread_code.specs.Valid.{IsValidCode};
ghost use Rattle.thread_code.specs.Fused.{AreFused};
ghost use Rattle.thread_code.specs.declared.instruction.Instruction.TheVariants as instruction;
ghost use Rattle.thread_steps.specs.BlockRun.{block_for};
ghost use Rattle.core_machine.specs.Held.{IsBefore, HasStopped};
ghost use Rattle.core_machine.specs.Threads.{Loaded};
ghost use Rattle.core_machine.specs.RunParts.{RunsBlock, Calls, Returns, ComesToEvent};

use crate::fork::fork_at;
use crate::thread::{Event, Phase, Thread};
use forec_base::{Place, Trap};
use thread_code::{Code, CodeParts, Fused, Instruction};
use thread_state::Resume;
use thread_steps::block_run::{Site, Stop, block_at, run_block, some_living};

impl Thread {
    /// Why the frame at work is left before it runs: the thread's own stands before a pause, or before a held fork of
    /// which a branch lives. None where it has to run.
    fn stop_at_once(&self, code: &CodeParts) -> Option<Stop>
        requires loaded { Loaded (plain_code code.now) self.now }
        requires running { self.now.phase ≡ Phase.Running false }
        ensures { IfSome result (λ stop. HasStopped (plain_code code.now) self.now stop) }
    {
        // A thread that has had no fork seldom stands before a pause, and never before a held fork.
        if self.branches.len() == 0 {
            return None;
        }
        if self.function.is_some() || self.units > self.allowance {
            return None;
        }
        let units = self.units;
        match block_at(code, self.number, None).steps[self.at as usize] {
            Instruction::Pause { to } => Some(Stop::Pauses { to }),
            Instruction::Again { par, .. } if some_living(&code.shape, &self.own, par) => {
                Some(Stop::Forks { units })
            }
            _ => None,
        }
    }

    /// Runs the frame at work until it is left, or until the units pass the allowance; with the fused
    /// steps of its block, if there are any.
    pub(crate) fn run_frame(&mut self, code: &CodeParts, fused: &[Fused]) -> Stop
        requires loaded { Loaded (plain_code code.now) self.old }
        requires fused { AreFused (block_for (plain_code code.now) self.old.number self.old.function).steps fused.now }
        requires running { (folding : Bool) × (self.old.phase ≡ Phase.Running folding) }
        ensures { RunsBlock (plain_code code.now) self.old self.new result }
    {
        let site = Site {
            code,
            thread: self.number,
            function: self.function,
            block: block_at(code, self.number, self.function),
        };
        let ran = run_block(
            &site,
            &mut self.own,
            &mut self.stack,
            self.at,
            self.units,
            self.allowance,
            fused,
        );
        self.at = ran.at;
        self.units = ran.units;
        ran.stop
    }

    pub(crate) fn call(&mut self, code: &CodeParts, function: u32)
        requires valid { IsValidCode (plain_code code.now) }
        requires loaded { Loaded (plain_code code.now) self.old }
        requires running { (folding : Bool) × (self.old.phase ≡ Phase.Running folding) }
        requires before { IsBefore (plain_code code.now) self.old (instruction.Call function) }
        ensures { Calls (plain_code code.now) self.old self.new }
    {
        let block = block_at(code, self.number, Some(function));
        let resume = Resume {
            at: self.at + 1,
            block: self.function,
        };
        self.stack
            .enter(block.params, block.words, block.counters, resume);
        self.function = Some(function);
        self.at = 0;
        self.units += 1;
    }

    pub(crate) fn return_to_caller(&mut self, code: &CodeParts)
        requires valid { IsValidCode (plain_code code.now) }
        requires loaded { Loaded (plain_code code.now) self.old }
        requires running { (folding : Bool) × (self.old.phase ≡ Phase.Running folding) }
        requires deep { self.old.phase ≡ Phase.Running true → 1 < length self.old.stack.below }
        requires before { IsBefore (plain_code code.now) self.old instruction.Return }
        ensures { Returns (plain_code code.now) self.old self.new }
    {
        let value = self.stack.pop();
        let resume = self.stack.leave();
        self.stack.push(value);
        self.at = resume.at;
        self.function = resume.block;
    }

    fn pause(&mut self, code: &CodeParts, to: u32) -> Event
        requires loaded { Loaded (plain_code code.now) self.old }
        requires running { self.old.phase ≡ Phase.Running false }
        requires before { IsBefore (plain_code code.now) self.old (instruction.Pause to) }
        ensures { ComesToEvent (plain_code code.now) self.old self.new result }
    {
        self.phase = Phase::Paused;
        self.at = to;
        Event::Paused
    }

    fn end(&mut self, code: &CodeParts) -> Event
        requires loaded { Loaded (plain_code code.now) self.old }
        requires running { self.old.phase ≡ Phase.Running false }
        requires before { IsBefore (plain_code code.now) self.old instruction.End }
        ensures { ComesToEvent (plain_code code.now) self.old self.new result }
    {
        self.phase = Phase::Ended;
        Event::Ended
    }

    fn trap(&mut self, code: &CodeParts, place: Place, trap: Trap, units: u64) -> Event
        requires loaded { Loaded (plain_code code.now) self.old }
        requires running { self.old.phase ≡ Phase.Running false }
        requires before { HasStopped (plain_code code.now) self.old (Stop.Traps place trap units) }
        ensures { ComesToEvent (plain_code code.now) self.old self.new result }
    {
        self.phase = Phase::Trapped { place, trap };
        self.units = units;
        if units > self.allowance {
            Event::Over
        } else {
            Event::Trapped { place, trap }
        }
    }

    #[inline(always)]
    fn fork(&mut self, code: &CodeParts, units: u64) -> Event
        requires valid { IsValidCode (plain_code code.now) }
        requires loaded { Loaded (plain_code code.now) self.old }
        requires running { self.old.phase ≡ Phase.Running false }
        requires before { HasStopped (plain_code code.now) self.old (Stop.Forks units) }
        ensures { ComesToEvent (plain_code code.now) self.old self.new result }
    {
        let fork = fork_at(code, self.number, self.at);
        self.branches.gather(&code.shape, fork, &self.own);
        self.phase = Phase::Forked { before: self.units };
        self.units = units;
        if units > self.allowance {
            Event::Over
        } else {
            Event::Fork
        }
    }

    /// Runs frame after frame to the next event.
    #[inline(always)]
    fn run_frames(&mut self, code: &Code) -> Event
        requires loaded { Loaded (plain_code code.now) self.old }
        requires running { self.old.phase ≡ Phase.Running false }
        ensures { ComesToEvent (plain_code code.now) self.old self.new result }
    {
        let parts = code.parts();
        loop {
            let fused = code.fused(self.number, self.function);
            match self.run_frame(parts, fused) {
                Stop::Calls { function } => self.call(parts, function),
                Stop::Returns => self.return_to_caller(parts),
                Stop::Pauses { to } => return self.pause(parts, to),
                Stop::Ends => return self.end(parts),
                Stop::Forks { units } => return self.fork(parts, units),
                Stop::Traps { place, trap, units } => return self.trap(parts, place, trap, units),
                Stop::Over => return Event::Over,
            }
        }
    }

    /// Runs to the next event.
    #[inline(always)]
    pub(crate) fn run_on(&mut self, code: &Code) -> Event
        requires loaded { Loaded (plain_code code.now) self.old }
        requires running { self.old.phase ≡ Phase.Running false }
        ensures { ComesToEvent (plain_code code.now) self.old self.new result }
    {
        let parts = code.parts();
        match self.stop_at_once(parts) {
            Some(Stop::Pauses { to }) => self.pause(parts, to),
            Some(Stop::Forks { units }) => self.fork(parts, units),
            _ => self.run_frames(code),
        }
    }
}
