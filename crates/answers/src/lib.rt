// The lines of an answer, put on a page: a verdict's or a refusal's.
#![tactic(auto)]

ghost use Rattle.rules.specs.Refusals.{carried_line};
ghost use Rattle.rules.specs.Text.{bytes, line};
ghost use Rattle.rules.specs.Report.{blocker_word, verdict_lines, refusal_lines, answer_lines};
ghost use Rattle.print.specs.Pages.{Fits, Adds};

use print::Page;
use rules::{Carried, Refusal, Verdict};

// The blocker's line is put on a page.
fn put_blocker(page: &mut Page, blocker: Option<u32>)
    requires { Fits page.old (line (bytes "blocker=") (blocker_word blocker)) }
    ensures { Adds page.old (line (bytes "blocker=") (blocker_word blocker)) page.new }
{
    match blocker {
        Some(k) => page.put_line(b"blocker=", k),
        None => page.put_line(b"blocker=", b"none"),
    }
}

// The lines of a "meets" are put on a page.
fn put_meets(page: &mut Page, span: u32)
    requires { Fits page.old (verdict_lines (Verdict.Meets span)) }
    ensures { Adds page.old (verdict_lines (Verdict.Meets span)) page.new }
{
    page.put_line(b"verdict=", b"meets");
    page.put_line(b"span=", span);
}

// The lines of a "misses" are put on a page.
fn put_misses(page: &mut Page, least: u32, blocker: Option<u32>, over: u32)
    requires { Fits page.old (verdict_lines (Verdict.Misses least blocker over)) }
    ensures { Adds page.old (verdict_lines (Verdict.Misses least blocker over)) page.new }
{
    page.put_line(b"verdict=", b"misses");
    page.put_line(b"length=", least);
    put_blocker(page, blocker);
    page.put_line(b"over=", over);
}

// A verdict's lines are put on a page.
fn put_verdict(page: &mut Page, verdict: Verdict)
    requires { Fits page.old (verdict_lines verdict) }
    ensures { Adds page.old (verdict_lines verdict) page.new }
{
    match verdict {
        Verdict::Meets(span) => put_meets(page, span),
        Verdict::Misses(least, blocker, over) => put_misses(page, least, blocker, over),
        Verdict::TooFar => page.put_line(b"verdict=", b"toofar"),
    }
}

// The line of what a refusal carries, if anything, is put on a page.
fn put_carried(page: &mut Page, carried: Option<Carried>)
    requires { Fits page.old (carried_line carried) }
    ensures { Adds page.old (carried_line carried) page.new }
{
    match carried {
        Some(Carried::Word(i)) => page.put_line(b"word=", i),
        Some(Carried::Line(l)) => page.put_line(b"line=", l),
        Some(Carried::Record(l)) => page.put_line(b"record=", l),
        None => {}
    }
}

// A refusal's lines are put on a page.
fn put_refusal(page: &mut Page, refusal: Refusal)
    requires { Fits page.old (refusal_lines refusal) }
    ensures { Adds page.old (refusal_lines refusal) page.new }
{
    page.put_line(b"refused=", numbers::refusal_number(refusal));
    put_carried(page, numbers::refusal_carries(refusal));
}

// An answer's lines are put on a page.
pub fn put_answer(page: &mut Page, answer: Result<Verdict, Refusal>)
    requires { Fits page.old (answer_lines answer) }
    ensures { Adds page.old (answer_lines answer) page.new }
{
    match answer {
        Ok(verdict) => put_verdict(page, verdict),
        Err(refusal) => put_refusal(page, refusal),
    }
}
