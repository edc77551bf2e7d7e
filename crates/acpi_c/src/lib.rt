// The static library that C and Rust link: crate acpi's calls under the same plain names, each with acpi's own clauses.
#![tactic(auto)]

ghost use Rattle.std.specs.Prelude.{◌≡◌, ◌/◌, ◌%◌, ◌^◌, length};
ghost use Rattle.format.specs.Bytes.{over, sum};
ghost use Rattle.format.specs.Build.{build, built};
ghost use Rattle.format.specs.Out.{read_out, out_written};
ghost use Rattle.format.specs.Read.{reading_of};
ghost use Rattle.format.specs.Read as format;
ghost use Rattle.read.specs.Places.{counted, seen_at, part_at, first_place};
ghost use Rattle.build.specs.Answers.{number_in, place_of};
ghost use Rattle.acpi.specs.Calls.{checked, numbers, count_in, answered};

// Builds the table of a recipe; place gets its length.
#[unsafe(no_mangle)]
pub extern "C" fn acpi_build(recipe: &[u8], out: &mut [u8], place: &mut usize) -> u32
    ensures value { result ≡ number_in (build recipe.now (length out.old)) }
    ensures place_after { place.new ≡ place_of (build recipe.now (length out.old)) }
    ensures out_after { out.new ≡ built recipe.now out.old }
{
    acpi::acpi_build(recipe, out, place)
}

// Judges a recipe; place gets the length of its table.
#[unsafe(no_mangle)]
pub extern "C" fn acpi_check(recipe: &[u8], place: &mut usize) -> u32
    ensures value { result ≡ number_in (checked recipe.now) }
    ensures place_after { place.new ≡ place_of (checked recipe.now) }
{
    acpi::acpi_check(recipe, place)
}

// Writes the recipe of a table; place gets its length.
#[unsafe(no_mangle)]
pub extern "C" fn acpi_read_out(table: &[u8], out: &mut [u8], place: &mut usize) -> u32
    ensures value { result ≡ number_in (read_out table.now (length out.old)) }
    ensures place_after { place.new ≡ place_of (read_out table.now (length out.old)) }
    ensures out_after { out.new ≡ out_written table.now out.old }
{
    acpi::acpi_read_out(table, out, place)
}

// Judges a table by the rows that the mask has; place gets the number of its records.
#[unsafe(no_mangle)]
pub extern "C" fn acpi_accept(table: &[u8], mask: u32, place: &mut usize) -> u32
    ensures value { result ≡ number_in (counted (format.accept table.now mask)) }
    ensures place_after { place.new ≡ place_of (counted (format.accept table.now mask)) }
{
    acpi::acpi_accept(table, mask, place)
}

// Where the first record of a table starts.
#[unsafe(no_mangle)]
pub extern "C" fn acpi_first_place(table: &[u8]) -> usize
    ensures { result ≡ first_place table.now }
{
    acpi::acpi_first_place(table)
}

// The record at a place, by the rows that the mask has. The next record starts behind it.
#[unsafe(no_mangle)]
pub extern "C" fn acpi_record_at(table: &[u8], mask: u32, place: usize, answer: &mut [u64])
    ensures { answer.new ≡ over answer.old 0 (numbers (reading_of 0 (seen_at table.now mask place)) (part_at table.now mask place)) }
{
    acpi::acpi_record_at(table, mask, place, answer);
}

// Record number n of a table, by the rows that the mask has; place gets the number of records.
#[unsafe(no_mangle)]
pub extern "C" fn acpi_read(
    table: &[u8],
    mask: u32,
    n: usize,
    answer: &mut [u64],
    place: &mut usize,
) -> u32
    ensures value { result ≡ number_in (count_in (format.read table.now mask n)) }
    ensures place_after { place.new ≡ place_of (count_in (format.read table.now mask n)) }
    ensures answer_after { answer.new ≡ answered (format.read table.now mask n) (format.read_part table.now mask n) answer.old }
{
    acpi::acpi_read(table, mask, n, answer, place)
}

// The whole sum of the bytes modulo 2^64; high gets how often 2^64 goes into it.
#[unsafe(no_mangle)]
pub extern "C" fn acpi_sum(bytes: &[u8], high: &mut u64) -> u64
    ensures value { result ≡ sum bytes.now % 2 ^ 64 }
    ensures high_after { high.new ≡ sum bytes.now / 2 ^ 64 }
{
    acpi::acpi_sum(bytes, high)
}
