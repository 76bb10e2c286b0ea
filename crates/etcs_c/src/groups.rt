//! Balise groups.

ghost use Rattle.std.specs.Prelude.{◌≡◌, ◌⊎◌, List, ◌∷◌, map, IfSome, IsNone};
ghost use Rattle.etcs_telegram.specs.Telegrams.{TelegramContent};
ghost use Rattle.etcs_text.specs.declared.entry.Kind.{Kind};
ghost use Rattle.etcs_text.specs.Kinds.{IsOfTelegrams};
ghost use Rattle.etcs_group.specs.declared.clash.Clash.{Clash};
ghost use Rattle.etcs_group.specs.Clashes.{IsFirstClash};
ghost use Rattle.etcs_group.specs.Groups.{IsHeldOf, Joins};
ghost use Rattle.etcs_c.specs.Answers.{kind_number};
ghost use Rattle.etcs_c.specs.Groups.{IsOf, IsState, SaysGroup, SaysUnheld, clash_status, flag};

use crate::answer::{
    CLASH_COUNTER, CLASH_DIFFERS, CLASH_DUPLICATE, CLASH_GROUP, CLASH_POSITION, CLASH_TOTAL,
    EtcsAnswer, UNKNOWN_KIND, WHOLE,
};
use crate::found::item_of;
use etcs_group::{Assembly, Clash, Telegram};
use etcs_text::{Entry, Kind};
use std::alloc::Global;

/// A telegram of either size.
#[repr(C)]
#[derive(Clone, Copy)]
pub struct EtcsTelegram {
    /// The number of its kind: 1 long, 2 short.
    pub kind: u32,
    /// Its bytes: all 104 of a long one, the first 27 of a short one.
    pub bytes: [u8; 104],
}

/// What telegrams of a group make together.
#[repr(C)]
#[derive(Drop)]
pub struct EtcsGroup {
    /// For each of the positions 0 to 7: 1 if it is missing, else 0.
    pub missing: [u8; 8],
    /// 1 if there is a telegram and no position is missing, else 0.
    pub is_complete: u32,
}

/// The kind of this number, if it is one of telegrams.
fn telegram_kind(number: u32) -> Option<Kind>
    ensures some { IfSome result (λ kind. (kind_number kind ≡ number) × IsOfTelegrams kind) }
    ensures none { IsNone result → (kind : Kind) → IsOfTelegrams kind → kind_number kind ≡ number → ⊥ }
{
    match number {
        1 => Some(Kind::Long),
        2 => Some(Kind::Short),
        _ => None,
    }
}

/// The status of a clash.
fn clash_status(clash: Clash) -> u32
    ensures { result ≡ clash_status clash }
{
    match clash {
        Clash::BadPosition => CLASH_POSITION,
        Clash::BadDuplicate => CLASH_DUPLICATE,
        Clash::OtherGroup => CLASH_GROUP,
        Clash::OtherTotal => CLASH_TOTAL,
        Clash::Counter => CLASH_COUNTER,
        Clash::Differs => CLASH_DIFFERS,
    }
}

/// Holds a telegram if it fits those that are held, and returns `WHOLE`, or the status of its first clash.
fn hold(telegram: Telegram, assembly: &mut Assembly) -> u32
    ensures held { (earlier : List TelegramContent) → IsHeldOf earlier assembly.old → IsHeldOf (telegram ∷ earlier) assembly.new }
    ensures status { ((result ≡ 0) × Joins assembly.old telegram) ⊎ ((c : Clash) × IsFirstClash c assembly.old telegram × (result ≡ clash_status c)) }
{
    match assembly.add(telegram) {
        Ok(_) => WHOLE,
        Err((clash, _)) => clash_status(clash),
    }
}

/// Holds the telegram that the bytes are, if it fits those that are held, or returns why it isn't held.
fn add(
    alloc: Global,
    telegram: &EtcsTelegram,
    assembly: &mut Assembly,
    answer: &mut EtcsAnswer,
) -> u32
    ensures { ((t : TelegramContent) × IsOf telegram.now t × Joins assembly.old t × ((earlier : List TelegramContent) → IsHeldOf earlier assembly.old → IsHeldOf (t ∷ earlier) assembly.new) × (result ≡ 0)) ⊎ ((result ≡ 0 → ⊥) × SaysUnheld telegram.now assembly.old result answer.new) }
{
    let Some(kind) = telegram_kind(telegram.kind) else {
        return UNKNOWN_KIND;
    };
    match item_of(alloc, kind, &telegram.bytes, answer) {
        Ok((entry, _)) => match entry {
            Entry::Telegram(telegram) => hold(telegram, assembly),
            _ => unreachable!(),
        },
        Err(status) => status,
    }
}

/// Writes 1 for each position that is marked, else 0.
fn write_flags(marked: &[bool; 8], out: &mut [u8; 8])
    ensures { out.new ≡ map flag marked.now }
{
    for position in 0..8 {
        out[position] = u8::from(marked[position]);
    }
}

/// Writes which positions are missing.
fn write_state(assembly: &Assembly, group: &mut EtcsGroup)
    ensures { IsState assembly.now group.new }
{
    write_flags(&assembly.missing(), &mut group.missing);
    group.is_complete = u32::from(assembly.is_complete());
}

/// Holds telegrams one after another, up to the first that isn't held, and writes what they make together.
#[tactic(auto, using(crate::proofs::Holding::none_held))]
pub(crate) fn assemble(
    alloc: Global,
    telegrams: &[EtcsTelegram],
    group: &mut EtcsGroup,
    answer: &mut EtcsAnswer,
) -> u32
    ensures { SaysGroup telegrams.now group.old group.new result answer.new }
{
    let mut assembly = Assembly::new();
    for (i, telegram) in telegrams.iter().enumerate() {
        let status = add(alloc, telegram, &mut assembly, answer);
        if status != WHOLE {
            answer.taken = i;
            return status;
        }
    }
    write_state(&assembly, group);
    WHOLE
}
