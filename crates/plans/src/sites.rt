// Which site a step speaks of.
ghost use Rattle.std.specs.Prelude.{◌≡◌, ◌<◌, ◌&&◌, true, leb, get_or};
ghost use Rattle.table.specs.Places.{no_site};

use vote::data::Site;

// Whether a digit is 1 to the site count.
pub fn is_site(n: u8, digit: u8) -> bool
    ensures { result ≡ (leb 1 digit && leb digit n) }
{
    (1..=n).contains(&digit)
}

// Whether the site of this index, where there is one, is up.
pub fn is_up(sites: &[Site; 7], k: u8) -> bool
    ensures value { result ≡ (get_or sites.now k no_site).up }
    ensures inside { result ≡ true → k < 7 }
{
    k < 7 && sites[usize::from(k)].up
}
