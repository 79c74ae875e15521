// The expansion of a text: its symbols one behind the other, and the texts that its references lead to, level by level.
ghost use Rattle.std.specs.Prelude.{List, ℕ, ◌+◌, ◌*◌, ◌≤◌, ◌^◌, length};
ghost use Rattle.paper.specs.Traces.{asks};
ghost use Rattle.variables.specs.Names.{names_of};
ghost use Rattle.gs.specs.Readings.{whole_text, expands};
ghost use Rattle.gs.specs.inner.Steps.{Came, Read, piece_of, length_in};

use crate::names::Names;
use crate::steps::{Carried, Expanded};
use crate::values;
use paper::TextPlace;
use paper::refusals::{Refusal, Refused};
use references::Referred;
use runs::output;
use runs::plain::plain_end;
use symbols::bytes::is_ending_space;
use symbols::flags::Flags;
use symbols::forms::Symbol;
use symbols::symbols::{open, symbol_at};

// What a reference gives: one number, the bytes of a value for one look-up, or what a macro's value gives.
#[cycle(expand_follow)]
#[tactic(auto, using(crate::proofs::Pieces::laid_at_lem, crate::proofs::Follows::number_gives, crate::proofs::Follows::over_gives, crate::proofs::Follows::too_big_gives, crate::proofs::Follows::unknown_gives))]
fn follow<'a>(
    referred: Referred,
    names: &Names<'a>,
    levels: u8,
    carried: Carried,
    at: TextPlace,
    out: &mut [u8],
) -> Result<Carried, Refused>
    requires { (carried.to + 255 * carried.left + 255 ≤ 2 ^ 40) × (length_in referred ≤ 255) }
    ensures { (name : List ℕ) → Came (piece_of names.now.tables.farm.now names.now.tables.house.now (expands (names_of names.now.tables.farm.now names.now.tables.house.now) levels) referred name at.0) carried.left carried.to out.old out.new result }
{
    match referred {
        Referred::Number(byte) => {
            output::put(byte, carried.to, out);
            Ok(Carried {
                to: carried.to + 1,
                left: carried.left,
            })
        }
        Referred::CodeOver255 => Err(Refused {
            why: Refusal::CodeOver255,
            at,
        }),
        Referred::TooBig => Err(Refused {
            why: Refusal::TooBig,
            at,
        }),
        Referred::Unknown => Err(Refused {
            why: Refusal::UnknownName,
            at,
        }),
        Referred::Text(v) => values::give(names.tables.value_of(v), carried, at, out),
        Referred::Integer(v) => values::give_integer(names.tables.value_of(v), carried, at, out),
        Referred::Macro(v) => spell(names.tables.value_of(v), names, levels, carried, at, out),
    }
}

// A macro's value as a text of its own, for one look-up and one level deeper.
#[cycle(expand_follow)]
fn spell<'a>(
    value: &[u8],
    names: &Names<'a>,
    levels: u8,
    carried: Carried,
    at: TextPlace,
    out: &mut [u8],
) -> Result<Carried, Refused>
    requires { (carried.to + 255 * carried.left + 255 ≤ 2 ^ 40) × (length value.now ≤ 255) }
    ensures { (name : List ℕ) → Came (λ rest. asks name (expands (names_of names.now.tables.farm.now names.now.tables.house.now) levels name at.0 value.now rest)) carried.left carried.to out.old out.new result }
{
    if levels == 0 {
        return Err(Refused {
            why: Refusal::TooDeep,
            at,
        });
    }
    if carried.left == 0 {
        return Err(Refused {
            why: Refusal::AllowanceSpent,
            at,
        });
    }
    let begun = Carried {
        to: carried.to,
        left: carried.left - 1,
    };
    // A refusal inside the value has the place of the "<" that names the macro.
    let inner = expand(value, names, Flags::none(), levels - 1, begun, out).map_err(
        |refused| Refused {
            why: refused.why,
            at,
        },
    )?;
    Ok(inner.carried)
}

// One level of a text, from its first symbol to its end. Bytes are written only where they fit the part that is lent, so that
// a part of nothing measures.
#[cycle(expand_follow)]
pub(crate) fn expand<'a>(
    text: &[u8],
    names: &Names<'a>,
    flags: Flags,
    levels: u8,
    carried: Carried,
    out: &mut [u8],
) -> Result<Expanded, Refused>
    requires { (length text.now ≤ 65535) × (carried.to + length text.now + 255 * carried.left + 255 ≤ 2 ^ 40) }
    ensures { Read (whole_text (names_of names.now.tables.farm.now names.now.tables.house.now) (expands (names_of names.now.tables.farm.now names.now.tables.house.now) levels) text.now flags.0) (length text.now) carried.left carried.to out.old out.new result }
{
    let first = open(text, flags);
    let mode = first.mode;
    let mut here = first.at;
    let mut far = carried.to;
    let mut rest = carried.left;
    let spaces_end = is_ending_space(flags, mode, b' ');
    loop {
        // Bytes that stand for themselves go over as one run; the symbol behind them is the next that needs a thought.
        let run_end = plain_end(text, here, spaces_end);
        output::copy(&text[here..run_end], far, out);
        far += run_end - here;
        here = run_end;
        let symbol = symbol_at(text, flags, mode, here);
        match symbol {
            Symbol::End(end) => return Ok(Expanded {
                end,
                carried: Carried {
                    to: far,
                    left: rest,
                },
            }),
            Symbol::Faulty { fault, at } => return Err(Refused {
                why: Refusal::from(fault),
                at,
            }),
            Symbol::Byte(byte, next) => {
                output::put(byte, far, out);
                far += 1;
                here = next;
            }
            Symbol::Reference { start, end, next } => {
                let referred = names.referred(&text[start..end]);
                let behind = follow(
                    referred,
                    names,
                    levels,
                    Carried {
                        to: far,
                        left: rest,
                    },
                    TextPlace(here),
                    out,
                )?;
                far = behind.to;
                rest = behind.left;
                here = next;
            }
        }
    }
}
