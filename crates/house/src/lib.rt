// The library of the other houses: a handful of functions on numbers and bytes. C and Rust call them through house_c, which exports each under its
// own name with the same clauses; include/vundrelt.h says the same to a C caller. Each returns document 01's number: 0 where it is done. Beside a
// refusal every number given back is 0, and a buffer is as it came.
// Stays: the C interface; C reads numbers for refusals, and takes each answer in a parameter of its own.
#![tactic(auto)]

ghost use Rattle.std.specs.Prelude.{◌≡◌, length};
ghost use Rattle.sitefile.specs.Read.{file_read};
ghost use Rattle.sitefile.specs.Write.{file_written, buffer_after};
ghost use Rattle.house.specs.House.{night_length, night_printed, night_into, print_answer};

use refusals::{Refusal, answer_number};
use sitefile::{read_site_file, write_site_file};

pub mod night;

// Hands out how many bytes were written, 0 beside a refusal, and gives the number.
fn hand_out(answer: Result<usize, Refusal>, written: &mut usize) -> u8
    ensures number { result ≡ (print_answer answer).number }
    ensures written { written.new ≡ (print_answer answer).length }
{
    *written = answer.unwrap_or(0);
    answer_number(answer)
}

// How many bytes the lines of a night are; the largest number there is where they are more.
pub fn vundrelt_night_length(input: &[u8]) -> usize
    ensures { result ≡ night_length input.now }
{
    night::night_length(input)
}

// A night: one byte, the site count, then records. Its lines, at the front of the output, and how many bytes they are; 19 where the output is
// too short for all of them.
pub fn vundrelt_night(input: &[u8], output: &mut [u8], written: &mut usize) -> u8
    ensures number { result ≡ (night_printed input.now (length output.old)).number }
    ensures written { written.new ≡ (night_printed input.now (length output.old)).length }
    ensures bytes { output.new ≡ night_into input.now output.old }
{
    hand_out(night::print_night(input, output), written)
}

// Reads a site file: its site, and the stamps and values by item; 18 and zeros where the bytes are no site file.
pub fn vundrelt_read_site_file(
    input: &[u8],
    site: &mut u8,
    stamps: &mut [u64; 24],
    values: &mut [i32; 24],
) -> u8
    ensures number { result ≡ (file_read input.now).number }
    ensures site { site.new ≡ (file_read input.now).site }
    ensures stamps { stamps.new ≡ (file_read input.now).stamps }
    ensures values { values.new ≡ (file_read input.now).values }
{
    match read_site_file(input) {
        Ok(file) => {
            let all_stamps = file.stamps;
            let all_values = file.values;
            *site = file.site;
            *stamps = all_stamps;
            *values = all_values;
            0
        }
        Err(refusal) => {
            *site = 0;
            *stamps = [0; 24];
            *values = [0; 24];
            refusal.number()
        }
    }
}

// Writes a site file at the front of the output, and says how many bytes it is; 19 where the output is too short or the site or a reading is
// not allowed.
pub fn vundrelt_write_site_file(
    site: u8,
    stamps: &[u64; 24],
    values: &[i32; 24],
    output: &mut [u8],
    written: &mut usize,
) -> u8
    ensures number { result ≡ (file_written (length output.old) site stamps.now values.now).number }
    ensures written { written.new ≡ (file_written (length output.old) site stamps.now values.now).length }
    ensures bytes { output.new ≡ buffer_after output.old site stamps.now values.now }
{
    hand_out(write_site_file(output, site, stamps, values), written)
}
