//! What a completion breaks, held against its open request: C3 to C10.
//! PCI Express Base Specification 5.0, chapter 2: completion rules, Read Completion Boundary,
//! completion status.
ghost use Rattle.std.specs.Prelude.{◌≡◌, ◌≢◌, ℕ, ◌+◌, ◌<◌, ◌≤◌, ◌++◌, [], IsTrue, true, false};
ghost use Rattle.arrayvec.specs.ArrayVec.{array_vec_len};
ghost use Rattle.pl_profile.specs.Ranges.{is_completion_boundary};
ghost use Rattle.pl_tlp.specs.Fit.{Fits};
ghost use Rattle.pl_tlp.specs.Kinds as tlps;
ghost use Rattle.pl_tlp.specs.Groups as kinds;
ghost use Rattle.pl_pair.specs.Judging.{held};
ghost use Rattle.pl_pair.specs.Rules.{held_if};
ghost use Rattle.pl_pair.specs.Rules as spec;

use crate::part::{has_data, is_counted, is_successful};
use crate::request::{OpenRequest, Request};
use pl_base::{Dir, Found, MOST_VERDICTS, Rule, add_if};
use pl_profile::Profile;
use pl_tlp::{Kind, Packet};

/// The Read Completion Boundary of the completions that travel in direction `dir`, in bytes: 64 or
/// 128.
pub(crate) fn boundary_of(profile: &Profile, dir: Dir) -> u8
    ensures value { result ≡ spec.boundary_of profile.now dir }
    ensures range { IsTrue (is_completion_boundary result) }
{
    profile.rcb[dir.index()]
}

/// The most rules that one completion can break: C3 to C10.
pub const MOST_OF_A_COMPLETION: usize = 8;

/// Which of the rules C3 to C10 a completion breaks.
#[derive(Clone, Copy)]
struct Broken {
    c3: bool,
    c4: bool,
    c5: bool,
    c6: bool,
    c7: bool,
    c8: bool,
    c9: bool,
    c10: bool,
}

/// Adds what the completion at position `at` breaks of C3 to C10, where `boundary` is the Read
/// Completion Boundary of its direction.
///
/// Most completions break none, and then nothing is written.
#[tactic(auto, unfolding(crate::specs::Rules::part_verdicts))]
pub(crate) fn judge_part<P: Packet>(
    found: &mut Found,
    boundary: u8,
    opened: &OpenRequest,
    tlp: &P,
    at: u64,
)
    requires completion { kinds.is_completion (P.fields tlp.now).kind ≡ true }
    requires room { array_vec_len found.old + MOST_OF_A_COMPLETION ≤ MOST_VERDICTS }
    requires boundary { IsTrue (is_completion_boundary boundary) }
    requires fits { Fits (P.fields tlp.now) }
    ensures verdicts { found.new.items
        ≡ found.old.items ++ spec.part_verdicts boundary opened.now (P.fields tlp.now) at }
    ensures few { array_vec_len found.new ≤ array_vec_len found.old + MOST_OF_A_COMPLETION }
{
    let broken = broken_by(boundary, opened, tlp);
    if broken.any() {
        broken.add_verdicts(found, opened, at);
    }
}

impl Broken {
    /// Whether it is at least one.
    fn any(&self) -> bool
        ensures some { result ≡ true → (opened : OpenRequest) (at : ℕ)
            → held opened at self.now ≢ [] }
        ensures none { result ≡ false → (opened : OpenRequest) (at : ℕ)
            → held opened at self.now ≡ [] }
    {
        self.c3 || self.c4 || self.c5 || self.c6 || self.c7 || self.c8 || self.c9 || self.c10
    }

    /// Adds the verdicts on the completion at position `at`, which cite its open request and the
    /// first of its completions.
    fn add_verdicts(&self, found: &mut Found, opened: &OpenRequest, at: u64)
        requires { array_vec_len found.old + MOST_OF_A_COMPLETION ≤ MOST_VERDICTS }
        ensures items { found.new.items ≡ found.old.items ++ held opened.now at self.now }
        ensures few { array_vec_len found.new ≤ array_vec_len found.old + MOST_OF_A_COMPLETION }
    {
        hold(found, self.c3, Rule::C3, opened, at);
        hold(found, self.c4, Rule::C4, opened, at);
        hold(found, self.c5, Rule::C5, opened, at);
        hold(found, self.c6, Rule::C6, opened, at);
        hold(found, self.c7, Rule::C7, opened, at);
        hold(found, self.c8, Rule::C8, opened, at);
        hold(found, self.c9, Rule::C9, opened, at);
        hold(found, self.c10, Rule::C10, opened, at);
    }
}

/// Adds a verdict that cites the open request and the first of its completions, where the rule is
/// broken.
fn hold(found: &mut Found, broken: bool, rule: Rule, opened: &OpenRequest, at: u64)
    requires { array_vec_len found.old + 1 ≤ MOST_VERDICTS }
    ensures items { found.new.items ≡ found.old.items ++ held_if opened.now broken rule at }
    ensures most { array_vec_len found.new ≤ array_vec_len found.old + 1 }
{
    add_if(found, broken, rule, at, Some(opened.at), opened.first_part);
}

/// Which rules a completion breaks.
fn broken_by<P: Packet>(boundary: u8, opened: &OpenRequest, tlp: &P) -> Broken
    requires completion { kinds.is_completion (P.fields tlp.now).kind ≡ true }
    requires boundary { IsTrue (is_completion_boundary boundary) }
    requires fits { Fits (P.fields tlp.now) }
    ensures c3 { result.c3 ≡ spec.breaks_c3 opened.now.request (P.fields tlp.now) }
    ensures c4 { result.c4 ≡ spec.breaks_c4 opened.now.request (P.fields tlp.now) }
    ensures c5 { result.c5 ≡ spec.breaks_c5 opened.now.request opened.now.got (P.fields tlp.now) }
    ensures c6 { result.c6 ≡ spec.breaks_c6 opened.now.request opened.now.got (P.fields tlp.now) }
    ensures c7 { result.c7 ≡ spec.breaks_c7 opened.now.request opened.now.got (P.fields tlp.now) }
    ensures c8 { result.c8 ≡ spec.breaks_c8 opened.now.request (P.fields tlp.now) }
    ensures c9 { result.c9
        ≡ spec.breaks_c9 boundary opened.now.request opened.now.got (P.fields tlp.now) }
    ensures c10 { result.c10 ≡ spec.breaks_c10 opened.now.request (P.fields tlp.now) }
{
    let request = &opened.request;
    let counts = counts_broken_by(boundary, opened, tlp);
    Broken {
        c3: breaks_c3(request, tlp),
        c4: breaks_c4(request, tlp),
        c5: breaks_c5(opened, tlp),
        c6: counts.c6,
        c7: counts.c7,
        c8: breaks_c8(request, tlp),
        c9: counts.c9,
        c10: breaks_c10(request, tlp),
    }
}

/// C3: another Traffic Class, or other attributes Attr[1:0], than the request.
fn breaks_c3<P: Packet>(request: &Request, tlp: &P) -> bool
    ensures { result ≡ spec.breaks_c3 request.now (P.fields tlp.now) }
{
    tlp.tc() != request.tc || tlp.attr() % 4 != request.attr % 4
}

/// C4: data with an unsuccessful status, none with a successful one where data were wanted, data
/// where none were wanted, or less than an AtomicOp wants.
fn breaks_c4<P: Packet>(request: &Request, tlp: &P) -> bool
    requires completion { kinds.is_completion (P.fields tlp.now).kind ≡ true }
    requires fits { Fits (P.fields tlp.now) }
    ensures { result ≡ spec.breaks_c4 request.now (P.fields tlp.now) }
{
    let wanted = request.wanted();
    if has_data(tlp) {
        !is_successful(tlp) || wanted == 0 || (request.kind.is_atomic() && tlp.length() < wanted)
    } else {
        is_successful(tlp) && wanted != 0
    }
}

/// C5: more data than were wanted.
fn breaks_c5<P: Packet>(opened: &OpenRequest, tlp: &P) -> bool
    requires { Fits (P.fields tlp.now) }
    ensures { result ≡ spec.breaks_c5 opened.now.request opened.now.got (P.fields tlp.now) }
{
    let wanted = opened.request.wanted();
    has_data(tlp) && wanted != 0 && reached(opened, tlp) > u32::from(wanted)
}

/// How many DW its completions bring with this one, where it has data.
fn reached<P: Packet>(opened: &OpenRequest, tlp: &P) -> u32
    ensures { result ≡ opened.now.got + (P.fields tlp.now).length }
{
    u32::from(opened.got) + u32::from(tlp.length())
}

/// Which of the rules C6, C7 and C9 a completion breaks, which look at what is counted.
#[derive(Clone, Copy)]
struct Counts {
    c6: bool,
    c7: bool,
    c9: bool,
}

/// None of them.
const NONE: Counts = Counts {
    c6: false,
    c7: false,
    c9: false,
};

/// Which of C6, C7 and C9 it breaks. Those that can't apply to its status and its request aren't
/// tried.
#[tactic(auto, using(pl_tlp::proofs::GroupLayouts::completion_layout))]
fn counts_broken_by<P: Packet>(boundary: u8, opened: &OpenRequest, tlp: &P) -> Counts
    requires completion { kinds.is_completion (P.fields tlp.now).kind ≡ true }
    requires boundary { IsTrue (is_completion_boundary boundary) }
    requires fits { Fits (P.fields tlp.now) }
    ensures c6 { result.c6 ≡ spec.breaks_c6 opened.now.request opened.now.got (P.fields tlp.now) }
    ensures c7 { result.c7 ≡ spec.breaks_c7 opened.now.request opened.now.got (P.fields tlp.now) }
    ensures c9 { result.c9
        ≡ spec.breaks_c9 boundary opened.now.request opened.now.got (P.fields tlp.now) }
{
    let request = &opened.request;
    if !is_counted(request, tlp) {
        return NONE;
    }
    match request.kind {
        Kind::MRd | Kind::MRdLk => {
            if !has_data(tlp) {
                return NONE;
            }
            Counts {
                c6: !tlp.bcm() && u32::from(tlp.byte_count()) != request.remaining(opened.got),
                c7: u32::from(tlp.lower()) != request.lower_address(opened.got),
                c9: ends_amiss(boundary, opened, tlp),
            }
        }
        Kind::IORd | Kind::IOWr | Kind::CfgRd0 | Kind::CfgWr0 | Kind::CfgRd1 | Kind::CfgWr1 => {
            Counts {
                c6: !tlp.bcm() && tlp.byte_count() != 4,
                c7: tlp.lower() != 0,
                c9: false,
            }
        }
        Kind::FetchAdd | Kind::Swap | Kind::Cas => Counts {
            c6: !tlp.bcm() && u32::from(tlp.byte_count()) != 4 * u32::from(request.wanted()),
            c7: false,
            c9: false,
        },
        // posted requests and completions are never open
        Kind::MWr | Kind::Msg | Kind::MsgD => NONE,
        Kind::Cpl | Kind::CplD | Kind::CplLk | Kind::CplDLk => NONE,
    }
}

/// Whether a completion with data of a memory read isn't the last one, and ends elsewhere than at a
/// multiple of the Read Completion Boundary.
fn ends_amiss<P: Packet>(boundary: u8, opened: &OpenRequest, tlp: &P) -> bool
    requires counted { spec.is_counted opened.now.request (P.fields tlp.now) ≡ true }
    requires read { kinds.is_memory_read opened.now.request.kind ≡ true }
    requires carries { tlps.has_data (P.fields tlp.now).kind ≡ true }
    requires boundary { IsTrue (is_completion_boundary boundary) }
    ensures { result
        ≡ spec.breaks_c9 boundary opened.now.request opened.now.got (P.fields tlp.now) }
{
    let reached = reached(opened, tlp);
    if reached >= u32::from(opened.request.wanted()) {
        return false;
    }
    let start = (opened.request.address % 128) as u32;
    (start + 4 * reached) % u32::from(boundary) != 0
}

/// C8: Configuration Request Retry Status for another request.
#[tactic(auto, using(pl_tlp::proofs::GroupLayouts::completion_layout))]
fn breaks_c8<P: Packet>(request: &Request, tlp: &P) -> bool
    requires { kinds.is_completion (P.fields tlp.now).kind ≡ true }
    ensures { result ≡ spec.breaks_c8 request.now (P.fields tlp.now) }
{
    tlp.status() == 2 && !request.kind.is_configuration_request()
}

/// C10: a completion of a locked read for another request, or the other way round.
fn breaks_c10<P: Packet>(request: &Request, tlp: &P) -> bool
    ensures { result ≡ spec.breaks_c10 request.now (P.fields tlp.now) }
{
    if request.kind.is_locked_read() {
        tlp.kind().is_plain_completion_with_data()
    } else {
        tlp.kind().is_locked_completion()
    }
}
