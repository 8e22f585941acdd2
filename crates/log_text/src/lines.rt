//! The lines of a log.
ghost use Rattle.std.specs.Prelude.{◌≡◌, ◌<◌, ◌≤◌, ◌-◌, ◌^◌, ◌++◌, ℕ, ℤ, List, decimal, length, drop, min, IfSome, IsSomeAnd};
ghost use Rattle.forec_base.specs.declared.limits.TheConstants.{MAX_BUDGET};
ghost use Rattle.forec_kernel.specs.Engine.{Job, Reply};
ghost use Rattle.forec_kernel.specs.Packed.{HasRoom, IsJob, IsReply};
ghost use Rattle.forec_kernel.specs.Shapes.{PlainShape};
ghost use Rattle.thread_code.specs.Valid.{of_shape};
ghost use Rattle.combine_tree.specs.Plain.{plain_packet};
ghost use Rattle.forec_base.specs.declared.Place.{Place};
ghost use Rattle.forec_base.specs.declared.Trap.{Trap};
ghost use Rattle.forec_kernel.specs.declared.shape.VarCopy.{VarCopy};
ghost use Rattle.exchange_meaning.specs.LogLines.{job_line, logged_trap, reply_line};
ghost use Rattle.exchange_meaning.specs.OfShape.{AreInts, HaveInts, IsPlaceNumber};
ghost use Rattle.log_text.specs.Pieces.{EndsDigits, IsFurther, StandsTo};
ghost use Rattle.log_text.specs.Fronts.{IsHeadLine};
ghost use Rattle.log_text.specs.Stages.{IsJobOf, IsReplyOf};
ghost use Rattle.log_text.specs.Readings.{behind_copies, behind_start, behind_trapped, behind_wake, IsStart, IsTrapOf, IsWake};
ghost use Rattle.log_text.specs.Readings.{KeepsRoom, ReadsHead, ReadsJob, ReadsReply, ReadsRest, ReadsStart, ReadsTrapped, ReadsWake};

use crate::numbers::{digits_at, number_at};
use crate::pieces::{expect, stands};
use crate::values::{read_args, read_copies, read_values};
use combine_tree::{Packet, PacketKind};
use forec_base::{MAX_BUDGET, Place, Trap};

/// Reads the line before the pairs of thread `thread`: how many these are, at most 2^64 - 1, and where it ends.
pub fn read_head(bytes: &[u8], at: usize, thread: u64) -> Option<(u64, usize)>
    requires { at ≤ length bytes.now }
    ensures stands { IfSome result (λ x. ReadsHead thread bytes.now at x.0 x.1) }
    ensures only { (jobs : ℕ) (line rest : List ℕ) → IsHeadLine thread jobs line → drop at bytes.now ≡ line ++ rest
        → IsSomeAnd result (λ x. (x.0 ≡ min jobs (2 ^ 64 - 1)) × (drop x.1 bytes.now ≡ rest)) }
{
    let at = expect(bytes, at, b"thread ")?;
    let (number, at) = number_at(bytes, at, u64::MAX)?;
    if number != thread {
        return None;
    }
    let at = expect(bytes, at, b" jobs ")?;
    let digits = digits_at(bytes, at)?;
    let end = expect(bytes, digits.end, b"\n")?;
    Some((digits.value.unwrap_or(u64::MAX), end))
}

/// Reads a `Start` behind its first word.
fn read_start(bytes: &[u8], at: usize, packet: &mut Packet) -> Option<usize>
    requires { at ≤ length bytes.now }
    ensures stands { IfSome result (λ end. ReadsStart bytes.now at packet.new end) }
    ensures only { (a : ℕ) (args values : List ℤ) (rest : List ℕ) → a ≤ MAX_BUDGET
        → length args ≡ length packet.old.args.items → AreInts args
        → length values ≡ length packet.old.copies.items → AreInts values
        → drop at bytes.now ≡ behind_start a args values rest
        → IsSomeAnd result (λ end. (drop end bytes.now ≡ rest) × IsStart packet.new a args values) }
    ensures room { KeepsRoom packet.old packet.new }
{
    let (allowance, at) = number_at(bytes, at, MAX_BUDGET)?;
    let at = read_args(bytes, at, &mut packet.args)?;
    let at = read_values(bytes, at, &mut packet.copies)?;
    let end = expect(bytes, at, b"\n")?;
    packet.kind = PacketKind::Start;
    packet.allowance = allowance;
    Some(end)
}

/// Reads a `Wake` behind its first word.
fn read_wake(bytes: &[u8], at: usize, packet: &mut Packet) -> Option<usize>
    requires { at ≤ length bytes.now }
    ensures stands { IfSome result (λ end. ReadsWake bytes.now at packet.new end) }
    ensures only { (a : ℕ) (values : List ℤ) (rest : List ℕ) → a ≤ MAX_BUDGET
        → length values ≡ length packet.old.copies.items → AreInts values
        → drop at bytes.now ≡ behind_wake a values rest
        → IsSomeAnd result (λ end. (drop end bytes.now ≡ rest) × IsWake packet.new a values) }
    ensures room { KeepsRoom packet.old packet.new }
{
    let (allowance, at) = number_at(bytes, at, MAX_BUDGET)?;
    let at = read_values(bytes, at, &mut packet.copies)?;
    let end = expect(bytes, at, b"\n")?;
    packet.kind = PacketKind::Wake;
    packet.allowance = allowance;
    Some(end)
}

/// Reads the line of a job of a thread with as many parameters and variables as the packet has arguments and copies.
pub fn read_job(bytes: &[u8], at: usize, packet: &mut Packet) -> Option<usize>
    requires { at ≤ length bytes.now }
    ensures stands { (s : PlainShape) (t : ℕ) → HasRoom (of_shape s) t (plain_packet packet.old)
        → IfSome result (λ end. ReadsJob s t bytes.now at (plain_packet packet.new) end) }
    ensures only { (s : PlainShape) (t : ℕ) (j : Job) (rest : List ℕ)
        → HasRoom (of_shape s) t (plain_packet packet.old) → IsJobOf s t j
        → drop at bytes.now ≡ job_line j ++ rest
        → IsSomeAnd result (λ end. (drop end bytes.now ≡ rest) × IsJob (plain_packet packet.new) j) }
    ensures further { IfSome result (λ end. IsFurther bytes.now at end) }
    ensures room { KeepsRoom packet.old packet.new }
    ensures small { IfSome result (λ _. packet.new.allowance ≤ MAX_BUDGET) }
{
    if let Some(at) = expect(bytes, at, b"start ") {
        return read_start(bytes, at, packet);
    }
    let at = expect(bytes, at, b"wake ")?;
    read_wake(bytes, at, packet)
}

/// Reads the units and the copies of a reply, to the end of its line.
fn read_rest(bytes: &[u8], at: usize, packet: &mut Packet) -> Option<usize>
    requires { at ≤ length bytes.now }
    ensures stands { IfSome result (λ end. ReadsRest bytes.now at packet.new end) }
    ensures only { (u : ℕ) (copies : List VarCopy) (rest : List ℕ) → u < 2 ^ 64
        → length copies ≡ length packet.old.copies.items → HaveInts copies
        → drop at bytes.now ≡ behind_copies u copies rest
        → IsSomeAnd result (λ end. (drop end bytes.now ≡ rest) × (packet.new.units ≡ u)
        × (packet.new.copies.items ≡ copies)) }
    ensures kind { packet.new.kind ≡ packet.old.kind }
    ensures room { KeepsRoom packet.old packet.new }
{
    let (units, at) = number_at(bytes, at, u64::MAX)?;
    let at = read_copies(bytes, at, &mut packet.copies)?;
    let end = expect(bytes, at, b"\n")?;
    packet.units = units;
    Some(end)
}

/// Reads a line or a column.
fn read_coordinate(bytes: &[u8], at: usize) -> Option<(u32, usize)>
    requires { at ≤ length bytes.now }
    ensures stands { IfSome result (λ x. IsPlaceNumber x.0 × StandsTo bytes.now at (decimal x.0) x.1) }
    ensures only { (n : ℕ) (rest : List ℕ) → IsPlaceNumber n → EndsDigits rest → drop at bytes.now ≡ decimal n ++ rest
        → IsSomeAnd result (λ x. (x.0 ≡ n) × (drop x.1 bytes.now ≡ rest)) }
{
    let (number, end) = number_at(bytes, at, u64::from(u32::MAX))?;
    if number == 0 {
        return None;
    }
    Some((number as u32, end))
}

/// Reads a kind of trap.
fn read_trap(bytes: &[u8], at: usize) -> Option<(Trap, usize)>
    requires { at ≤ length bytes.now }
    ensures stands { IfSome result (λ x. StandsTo bytes.now at (logged_trap x.0) x.1) }
    ensures only { (trap : Trap) (rest : List ℕ) → drop at bytes.now ≡ logged_trap trap ++ rest
        → IsSomeAnd result (λ x. (x.0 ≡ trap) × (drop x.1 bytes.now ≡ rest)) }
{
    if let Some(end) = expect(bytes, at, b"divide") {
        return Some((Trap::Divide, end));
    }
    if let Some(end) = expect(bytes, at, b"index") {
        return Some((Trap::Index, end));
    }
    let end = expect(bytes, at, b"turns")?;
    Some((Trap::Turns, end))
}

/// Reads the units of a trapped reply, its place and the kind of its trap, to the end of its line.
fn read_trapped(bytes: &[u8], at: usize, packet: &mut Packet) -> Option<usize>
    requires { at ≤ length bytes.now }
    ensures stands { IfSome result (λ end. ReadsTrapped bytes.now at packet.new end) }
    ensures only { (u : ℕ) (place : Place) (trap : Trap) (rest : List ℕ) → u < 2 ^ 64 → IsPlaceNumber place.line
        → IsPlaceNumber place.column
        → drop at bytes.now ≡ behind_trapped u place trap rest
        → IsSomeAnd result (λ end. (drop end bytes.now ≡ rest) × IsTrapOf packet.new u place trap) }
    ensures room { KeepsRoom packet.old packet.new }
{
    let (units, at) = number_at(bytes, at, u64::MAX)?;
    let at = expect(bytes, at, b" ")?;
    let (line, at) = read_coordinate(bytes, at)?;
    let at = expect(bytes, at, b":")?;
    let (column, at) = read_coordinate(bytes, at)?;
    let at = expect(bytes, at, b" ")?;
    let (trap, at) = read_trap(bytes, at)?;
    let end = expect(bytes, at, b"\n")?;
    packet.kind = PacketKind::Trapped {
        place: Place { line, column },
        trap,
    };
    packet.units = units;
    Some(end)
}

/// Reads the line of a reply of a thread that has as many variables as the packet has copies.
pub fn read_reply(bytes: &[u8], at: usize, packet: &mut Packet) -> Option<usize>
    requires { at ≤ length bytes.now }
    ensures stands { (s : PlainShape) (t : ℕ) → HasRoom (of_shape s) t (plain_packet packet.old)
        → IfSome result (λ end. ReadsReply s t bytes.now at (plain_packet packet.new) end) }
    ensures only { (s : PlainShape) (t : ℕ) (r : Reply) (rest : List ℕ)
        → HasRoom (of_shape s) t (plain_packet packet.old) → IsReplyOf s t r
        → drop at bytes.now ≡ reply_line r ++ rest
        → IsSomeAnd result (λ end. (drop end bytes.now ≡ rest) × IsReply (plain_packet packet.new) r) }
    ensures further { IfSome result (λ end. IsFurther bytes.now at end) }
    ensures room { KeepsRoom packet.old packet.new }
{
    if let Some(at) = expect(bytes, at, b"paused ") {
        packet.kind = PacketKind::Paused;
        return read_rest(bytes, at, packet);
    }
    if let Some(at) = expect(bytes, at, b"ended ") {
        packet.kind = PacketKind::Ended;
        return read_rest(bytes, at, packet);
    }
    if let Some(at) = expect(bytes, at, b"trapped ") {
        return read_trapped(bytes, at, packet);
    }
    let end = expect(bytes, at, b"over\n")?;
    packet.kind = PacketKind::Over;
    Some(end)
}
