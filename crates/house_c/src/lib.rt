// The static library that C and Rust link: each call of house under its own name, with the same clauses. include/vundrelt.h declares them. A slice
// is handed over as a pointer and a length.
#![tactic(auto)]

ghost use Rattle.std.specs.Prelude.{◌≡◌, length};
ghost use Rattle.sitefile.specs.Read.{file_read};
ghost use Rattle.sitefile.specs.Write.{file_written, buffer_after};
ghost use Rattle.house.specs.House.{night_length, night_printed, night_into};

// How many bytes the lines of a night are; the largest number there is where they are more.
#[unsafe(no_mangle)]
pub extern "C" fn vundrelt_night_length(input: &[u8]) -> usize
    ensures { result ≡ night_length input.now }
{
    house::vundrelt_night_length(input)
}

// A night: one byte, the site count, then records. Its lines, at the front of the output, and how many bytes they are; 19 where the output is
// too short for all of them.
#[unsafe(no_mangle)]
pub extern "C" fn vundrelt_night(input: &[u8], output: &mut [u8], written: &mut usize) -> u8
    ensures number { result ≡ (night_printed input.now (length output.old)).number }
    ensures written { written.new ≡ (night_printed input.now (length output.old)).length }
    ensures bytes { output.new ≡ night_into input.now output.old }
{
    house::vundrelt_night(input, output, written)
}

// Reads a site file: its site, and the stamps and values by item; 18 and zeros where the bytes are no site file.
#[unsafe(no_mangle)]
pub extern "C" fn vundrelt_read_site_file(
    input: &[u8],
    site: &mut u8,
    stamps: &mut [u64; 24],
    values: &mut [i32; 24],
) -> u8
    ensures number { result ≡ (file_read input.now).number }
    ensures site { site.new ≡ (file_read input.now).site }
    ensures stamps { stamps.new ≡ (file_read input.now).stamps }
    ensures values { values.new ≡ (file_read input.now).values }
{
    house::vundrelt_read_site_file(input, site, stamps, values)
}

// Writes a site file at the front of the output, and says how many bytes it is; 19 where the output is too short or the site or a reading is
// not allowed.
#[unsafe(no_mangle)]
pub extern "C" fn vundrelt_write_site_file(
    site: u8,
    stamps: &[u64; 24],
    values: &[i32; 24],
    output: &mut [u8],
    written: &mut usize,
) -> u8
    ensures number { result ≡ (file_written (length output.old) site stamps.now values.now).number }
    ensures written { written.new ≡ (file_written (length output.old) site stamps.now values.now).length }
    ensures bytes { output.new ≡ buffer_after output.old site stamps.now values.now }
{
    house::vundrelt_write_site_file(site, stamps, values, output, written)
}
