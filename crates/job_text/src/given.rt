//! What the words give, before a job is seen in them.

ghost use Rattle.std.specs.Prelude.{◌≡◌, ◌&&◌, ◌||◌, List, map, not, option_map, is_some};
ghost use Rattle.std.specs.List.{list_all, list_any};
ghost use Rattle.std.specs.Str.{bytes_eq};
ghost use Rattle.command_line.specs.Rules.{rows_found};
ghost use Rattle.job_mean.specs.Given as spec;
ghost use Rattle.job_mean.specs.Job.{extras, with_only};
ghost use Rattle.job_text.specs.Shown.{shown_given};

use clap::ArgMatches;
use command_line::{is_set, text};

/// The words at their places, the value of each option, and whether each flag was given.
#[derive(Clone, Copy)]
pub(crate) struct Given<'w> {
    pub job: &'w str,
    pub file: &'w str,
    pub second: Option<&'w str>,
    pub run: Option<&'w str>,
    pub seed: Option<&'w str>,
    pub events: Option<&'w str>,
    pub members: Option<&'w str>,
    pub turns: Option<&'w str>,
    pub me: Option<&'w str>,
    pub patience: Option<&'w str>,
    pub law: Option<&'w str>,
    pub traces: Option<&'w str>,
    pub wire: bool,
    pub count: bool,
    pub raw: bool,
    pub telling: bool,
}

/// A word that not every job has, and whether it was given.
type Extra = (&'static str, bool);

impl<'w> Given<'w> {
    /// What `clap` found, by name.
    pub(crate) fn of(matches: &ArgMatches<'w>) -> Option<Given<'w>>
        ensures { option_map shown_given result ≡ spec.given_in (rows_found matches.now) }
    {
        let job = text(matches, "job")?;
        let file = text(matches, "file")?;
        Some(Given {
            job,
            file,
            second: text(matches, "second"),
            run: text(matches, "run"),
            seed: text(matches, "seed"),
            events: text(matches, "events"),
            members: text(matches, "members"),
            turns: text(matches, "turns"),
            me: text(matches, "me"),
            patience: text(matches, "patience"),
            law: text(matches, "law"),
            traces: text(matches, "with"),
            wire: is_set(matches, "wire"),
            count: is_set(matches, "count"),
            raw: is_set(matches, "raw"),
            telling: is_set(matches, "telling"),
        })
    }

    /// Whether no word was given that a job doesn't list.
    pub(crate) fn has_only(&self, listed: &[&str]) -> bool
        ensures { result ≡ is_some (with_only (map (λ name. name.now) listed.now) (shown_given self.now)) }
    {
        are_listed(self.extras().as_slice(), listed)
    }

    /// Each word that not every job has, and whether it was given.
    fn extras(&self) -> [Extra; 13]
        ensures { map (λ extra. (extra.0.now, extra.1)) result ≡ extras (shown_given self.now) }
    {
        [
            ("second", self.second.is_some()),
            ("run", self.run.is_some()),
            ("seed", self.seed.is_some()),
            ("events", self.events.is_some()),
            ("members", self.members.is_some()),
            ("turns", self.turns.is_some()),
            ("me", self.me.is_some()),
            ("patience", self.patience.is_some()),
            ("law", self.law.is_some()),
            ("with", self.traces.is_some()),
            ("wire", self.wire),
            ("count", self.count),
            ("raw", self.raw),
        ]
    }
}

/// Whether each word that was given is listed.
fn are_listed(extras: &[Extra], listed: &[&str]) -> bool
    ensures { result ≡ list_all (λ extra. not extra.1 || list_any (λ name. bytes_eq extra.0.now name.now) listed.now)
        extras.now }
{
    extras
        .iter()
        .all(|extra| !extra.1 || is_listed(listed, extra.0))
}

fn is_listed(listed: &[&str], wanted: &str) -> bool
    ensures { result ≡ list_any (λ name. bytes_eq wanted.now name.now) listed.now }
{
    listed.iter().any(|name| wanted == *name)
}
