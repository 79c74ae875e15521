// The C face for C: each function of crates/nosgoludd under its own name, as include/nosgoludd.h declares it, with the same clauses.
#![tactic(auto)]

ghost use Rattle.std.specs.Prelude.{◌≡◌, not, eqb, length};
ghost use Rattle.paper.specs.Layings.{converted_answer};
ghost use Rattle.numbers.specs.Conversions.{answer_of, buffer_of};
ghost use Rattle.dates.specs.Conversions.{date_answer, date_buffer};
ghost use Rattle.reader.specs.Reading.{reading};
ghost use Rattle.variables.specs.Tables.{checked};
ghost use Rattle.indexes.specs.Buildings.{built, built_answer, index_after};
ghost use Rattle.indexes.specs.Indexes.{given_by};
ghost use Rattle.lookups.specs.Lookups.{looked_up};
ghost use Rattle.gs.specs.Translations.{translated, translated_answer, out_after};
ghost use Rattle.expressions.specs.Answers.{evaluated};
ghost use Rattle.nosgoludd.specs.Faces.{answer_face, reading_face, check_face, found_face, evaluation_face};

use nosgoludd::checks::NosChecked;
use nosgoludd::evaluations::NosValue;
use nosgoludd::meanings::NosVariable;
use nosgoludd::readings::NosNumber;
use nosgoludd::{
    NosAnswer, buildings, checks, conversions, evaluations, meanings, readings, translations,
};

#[unsafe(no_mangle)]
pub extern "C" fn nos_convert(call: u32, value: u32, buf: &mut [u8]) -> NosAnswer
    ensures answer { result ≡ answer_face (answer_of call value (length buf.old)) }
    ensures buffer { buf.new ≡ buffer_of call value buf.old }
{
    conversions::nos_convert(call, value, buf)
}

#[unsafe(no_mangle)]
pub extern "C" fn nos_convert_date(time: &[u8], format: &[u8], buf: &mut [u8]) -> NosAnswer
    ensures answer { result ≡ answer_face (date_answer time.now format.now (length buf.old)) }
    ensures buffer { buf.new ≡ date_buffer time.now format.now buf.old }
{
    conversions::nos_convert_date(time, format, buf)
}

#[unsafe(no_mangle)]
pub extern "C" fn nos_read_unsigned(text: &[u8], whole: u32, limit: u32) -> NosNumber
    ensures { result ≡ reading_face (reading text.now (not (eqb whole 0)) limit) }
{
    readings::nos_read_unsigned(text, whole, limit)
}

#[unsafe(no_mangle)]
pub extern "C" fn nos_check_table(table: &[u8]) -> NosChecked
    ensures { result ≡ check_face (checked table.now) }
{
    checks::nos_check_table(table)
}

#[unsafe(no_mangle)]
pub extern "C" fn nos_build_index(table: &[u8], out: &mut [u8]) -> NosAnswer
    ensures answer { result ≡ answer_face (built_answer (built table.now (length out.old))) }
    ensures buffer { out.new ≡ index_after table.now out.old }
{
    buildings::nos_build_index(table, out)
}

#[unsafe(no_mangle)]
pub extern "C" fn nos_look_up<'a>(
    name: &[u8],
    farm: &'a [u8],
    house: &'a [u8],
    index: &[u8],
    indexed: u32,
) -> NosVariable
    ensures { result ≡ found_face (looked_up farm.now house.now (given_by (not (eqb indexed 0)) index.now) name.now) }
{
    meanings::nos_look_up(name, farm, house, index, indexed)
}

#[unsafe(no_mangle)]
pub extern "C" fn nos_translate<'a>(
    text: &[u8],
    farm: &'a [u8],
    house: &'a [u8],
    index: &[u8],
    indexed: u32,
    flags: u32,
    allowance: u32,
    out: &mut [u8],
) -> NosAnswer
    ensures answer { result ≡ answer_face (translated_answer (translated text.now farm.now house.now (given_by (not (eqb indexed 0)) index.now) flags allowance (length out.old))) }
    ensures buffer { out.new ≡ out_after text.now farm.now house.now (given_by (not (eqb indexed 0)) index.now) flags allowance out.old }
{
    translations::nos_translate(text, farm, house, index, indexed, flags, allowance, out)
}

#[unsafe(no_mangle)]
pub extern "C" fn nos_evaluate<'a>(
    text: &[u8],
    farm: &'a [u8],
    house: &'a [u8],
    allowance: u32,
) -> NosValue
    ensures { result ≡ evaluation_face (evaluated text.now farm.now house.now allowance) }
{
    evaluations::nos_evaluate(text, farm, house, allowance)
}
