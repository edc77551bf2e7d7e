// What a VMM links: the calls under plain names. Crate acpi_c exports them, for C and Rust; include/acpi.h declares them.
// Each that may refuse answers a refusal's number, 0 for none; place gets the refusal's place, or the number that was asked for.
#![tactic(auto)]

ghost use Rattle.std.specs.Prelude.{◌≡◌, ◌/◌, ◌%◌, ◌^◌, length};
ghost use Rattle.format.specs.Bytes.{over, sum};
ghost use Rattle.format.specs.Build.{build, built};
ghost use Rattle.format.specs.Out.{read_out, out_written};
ghost use Rattle.format.specs.Read.{reading_of};
ghost use Rattle.format.specs.Read as format;
ghost use Rattle.read.specs.Places.{counted, seen_at, part_at, first_place};
ghost use Rattle.read.specs.Answers.{row_in, fields_in};
ghost use Rattle.build.specs.Answers.{number_in, place_of};
ghost use Rattle.acpi.specs.Calls.{checked, numbers_with, numbers, count_in, answered};

use build::BuildError;
use read::Shown;

// Builds the table of a recipe; place gets its length.
pub fn acpi_build(recipe: &[u8], out: &mut [u8], place: &mut usize) -> u32
    ensures value { result ≡ number_in (build recipe.now (length out.old)) }
    ensures place_after { place.new ≡ place_of (build recipe.now (length out.old)) }
    ensures out_after { out.new ≡ built recipe.now out.old }
{
    match build::build(recipe, out) {
        Ok(len) => {
            *place = len;
            0
        }
        Err(e) => {
            *place = e.place();
            e.number() as u32
        }
    }
}

// Judges a recipe; place gets the length of its table.
pub fn acpi_check(recipe: &[u8], place: &mut usize) -> u32
    ensures value { result ≡ number_in (checked recipe.now) }
    ensures place_after { place.new ≡ place_of (checked recipe.now) }
{
    match recipe::check(recipe) {
        Ok(outline) => {
            *place = outline.len;
            0
        }
        Err(refused) => {
            *place = refused.at;
            BuildError::Refused(refused).number() as u32
        }
    }
}

// Writes the recipe of a table; place gets its length.
pub fn acpi_read_out(table: &[u8], out: &mut [u8], place: &mut usize) -> u32
    ensures value { result ≡ number_in (read_out table.now (length out.old)) }
    ensures place_after { place.new ≡ place_of (read_out table.now (length out.old)) }
    ensures out_after { out.new ≡ out_written table.now out.old }
{
    match readout::read_out(table, out) {
        Ok(len) => {
            *place = len;
            0
        }
        Err(e) => {
            *place = e.place();
            e.number()
        }
    }
}

// Judges a table by the rows that the mask has; place gets the number of its records.
pub fn acpi_accept(table: &[u8], mask: u32, place: &mut usize) -> u32
    ensures value { result ≡ number_in (counted (format.accept table.now mask)) }
    ensures place_after { place.new ≡ place_of (counted (format.accept table.now mask)) }
{
    match read::accept(table, mask) {
        Ok(records) => {
            *place = records;
            0
        }
        Err(refusal) => {
            *place = refusal.place();
            refusal.number()
        }
    }
}

// ---- one record, as numbers

// How many numbers stand before the fields.
const FIELDS_AT: usize = 6;

// A record, with its part's place and length.
fn put_record(s: Shown, at: usize, len: usize, answer: &mut [u64])
    ensures { answer.new ≡ over answer.old 0 (numbers_with s.ty s.place s.length (row_in s.node) at len (fields_in s.node)) }
{
    let node = s.node;
    let front = [
        s.ty as u64,
        s.place as u64,
        s.length as u64,
        numbers::row_number(node),
        at as u64,
        len as u64,
    ];
    field::copy(answer, 0, &front);
    numbers::put_fields(node, answer, FIELDS_AT);
}

// ---- reading

// Where the first record of a table starts.
pub fn acpi_first_place(table: &[u8]) -> usize
    ensures { result ≡ first_place table.now }
{
    read::first_place(table)
}

// The record at a place, by the rows that the mask has. The next record starts behind it.
pub fn acpi_record_at(table: &[u8], mask: u32, place: usize, answer: &mut [u64])
    ensures { answer.new ≡ over answer.old 0 (numbers (reading_of 0 (seen_at table.now mask place)) (part_at table.now mask place)) }
{
    let record = read::record_at(table, mask, place);
    let part = read::part_at(table, mask, place).len();
    put_record(record, record.place + (record.length - part), part, answer);
}

// Record number n of a table, by the rows that the mask has; place gets the number of records.
pub fn acpi_read(table: &[u8], mask: u32, n: usize, answer: &mut [u64], place: &mut usize) -> u32
    ensures value { result ≡ number_in (count_in (format.read table.now mask n)) }
    ensures place_after { place.new ≡ place_of (count_in (format.read table.now mask n)) }
    ensures answer_after { answer.new ≡ answered (format.read table.now mask n) (format.read_part table.now mask n) answer.old }
{
    match read::read(table, mask, n) {
        Ok(reading) => {
            *place = reading.count;
            acpi_record_at(table, mask, reading.record.place, answer);
            0
        }
        Err(refusal) => {
            *place = refusal.place();
            refusal.number()
        }
    }
}

// ---- the sum

// What a Whole's high is divided by for a word of 64 bits, low being eight of them.
const HIGH: u64 = 72057594037927936;

// The whole sum of the bytes modulo 2^64; high gets how often 2^64 goes into it.
pub fn acpi_sum(bytes: &[u8], high: &mut u64) -> u64
    ensures value { result ≡ sum bytes.now % 2 ^ 64 }
    ensures high_after { high.new ≡ sum bytes.now / 2 ^ 64 }
{
    let sum = field::u8sum(bytes);
    *high = sum.high / HIGH;
    sum.high % HIGH * 256 + sum.low as u64
}
