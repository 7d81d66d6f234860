// The variable that the walk is at: its VDR is judged once, before the link to it is taken, and kept while its index is walked.
ghost use Rattle.std.specs.Prelude.{◌≡◌};
ghost use Rattle.variables.specs.Vdr.{variable_told};
ghost use Rattle.walk.specs.Bounds.{known_of, linked_variable, next_variable};

use crate::positions::Walk;
use format::fields;
use records::breaches::Breach;
use variables::vdr;
use variables::vdr::Shape;

// The variable whose index is walked. Elsewhere there is none, and the answer is a VDR that passes the file's end.
pub fn known(f: &[u8], w: Walk) -> Result<Shape, Breach>
    ensures { variable_told result ≡ known_of f.now w }
{
    match w {
        Walk::Chain { var, .. } | Walk::Entry { var, .. } => vdr::variable_at(f, var.kind, var.vdr),
        _ => Err(Breach::PastEnd),
    }
}

// The VDR of a kind that a link leads to, or v where the link passes the file's end. The kind is a number, as in Walk.
fn linked(f: &[u8], kind: u32, link: u32, v: Result<Shape, Breach>) -> Result<Shape, Breach>
    ensures { variable_told result ≡ linked_variable f.now kind link (variable_told v) }
{
    let p = link as usize;
    if fields::end(f) < p + 4 {
        return v;
    }
    vdr::variable_at(f, kind, fields::link_at(f, p))
}

// The variable that the next link leads to; elsewhere still v, the one whose index is walked.
pub fn next_variable(f: &[u8], w: Walk, v: Result<Shape, Breach>) -> Result<Shape, Breach>
    ensures { variable_told result ≡ next_variable f.now w (variable_told v) }
{
    match w {
        Walk::Vars { kind, link, .. } => linked(f, kind, link, v),
        _ => v,
    }
}
