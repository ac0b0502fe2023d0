ghost use Rattle.std.specs.Prelude.{◌≡◌, ◌≤◌, map, option_map};
ghost use Rattle.clap.specs.Words.{found_of, rows_of, all_of};
ghost use Rattle.requests.specs.Passed.{HasNumber, text_at, number_at};

use clap::ArgMatches;

/// The text of the argument of this name; the empty text where it has none.
pub fn text<'a>(matches: &ArgMatches<'a>, name: &str) -> &'a str
    ensures { result.now ≡ text_at name.now (rows_of (found_of matches.now)) }
{
    matches.get_str(name).unwrap_or("")
}

/// The texts of the argument of this name, in the order of the words; `None` where it has none.
pub fn texts<'m, 'a>(matches: &'m ArgMatches<'a>, name: &str) -> Option<&'m [&'a str]>
    ensures { option_map (λ found. map (λ text. text.now) found.now) result ≡ all_of name.now (rows_of (found_of matches.now)) }
{
    matches.get_strs(name)
}

/// The number of the argument of this name, which its reader took, from `low` to `high`.
pub fn number(matches: &ArgMatches<'_>, name: &str, low: u32, high: u32) -> u32
    requires { HasNumber low high name.now (rows_of (found_of matches.now)) }
    ensures value { result ≡ number_at name.now (rows_of (found_of matches.now)) }
    ensures low { low ≤ result }
    ensures high { result ≤ high }
{
    matches.get_one::<u32>(name).unwrap()
}
