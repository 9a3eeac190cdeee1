//! What was found so far: the least fault, and whether some mention is faulty.
ghost use Rattle.std.specs.Prelude.{◌≡◌, ◌||◌, None, Some, true, false, if◌then◌else◌, option_map};
ghost use Rattle.cm_syntax.specs.Fault.{fault_at, fault_where, rank as rank_of};
ghost use Rattle.cm_names.specs.Found.{found_before};
ghost use Rattle.cm_names.specs.Finding as finding;

use std::marker::Model;

/// What is wrong at an offset, as the language has it: at one offset the kind that stands first is answered.
#[derive(Clone, Copy, Debug, PartialEq, Eq)]
pub(crate) enum FaultKind {
    Unknown,
    Twice,
    Arity,
    Kind,
    NoMain,
    Frame,
    Count,
}

/// A faulty offset, in bytes of the source, and what is wrong there.
#[derive(Clone, Copy, Debug, PartialEq, Eq)]
pub(crate) struct FoundFault {
    pub at: u32,
    pub kind: FaultKind,
}

/// What was found in the names so far.
#[derive(Debug, Drop)]
pub(crate) struct Findings {
    // The fault that is answered of those that were found.
    least: Option<FoundFault>,
    // Whether a mention of the present function is faulty.
    has_faulty_mention: bool,
}

impl Model for Findings {
    ghost use Rattle.std.specs.Prelude.{option_map};
    ghost use Rattle.cm_names.specs.Found.{Found};
    ghost use Rattle.cm_names.specs.Finding.{fault_of};

    ghost Value = { Found };

    ghost view = { λ found. record {
      least = option_map fault_of found.least;
      has_faulty_mention = found.has_faulty_mention;
    } };
}

impl Findings {
    /// What was found in the functions before this one, of which no mention was found yet.
    pub(crate) fn behind(least: Option<FoundFault>) -> Findings
        ensures { result ≡ found_before (option_map finding.fault_of least) }
    {
        Findings {
            least,
            has_faulty_mention: false,
        }
    }

    /// The fault that is answered of those that were found.
    pub(crate) fn least(&self) -> Option<FoundFault>
        ensures { option_map finding.fault_of result ≡ self.now.least }
    {
        self.least
    }

    /// Whether a mention of the present function is faulty.
    pub(crate) fn has_faulty_mention(&self) -> bool
        ensures { result ≡ self.now.has_faulty_mention }
    {
        self.has_faulty_mention
    }

    /// Notes a fault.
    fn note(&mut self, at: u32, kind: FaultKind)
        ensures { self.new ≡ record self.old { least = finding.keep self.old.least (fault_at at (finding.variant_of kind)) } }
    {
        let fault = FoundFault { at, kind };
        let is_least = match self.least {
            None => true,
            Some(least) => precedes(fault, least),
        };
        if is_least {
            self.least = Some(fault);
        }
    }

    /// Notes a fault that is no mention's, where it is one.
    pub(crate) fn note_where(&mut self, is_faulty: bool, at: u32, kind: FaultKind)
        ensures { self.new ≡ finding.after_faults self.old (fault_where is_faulty at (finding.variant_of kind)) }
    {
        if is_faulty {
            self.note(at, kind);
        }
    }

    /// Notes a fault of a mention, where it is one.
    pub(crate) fn note_mention(&mut self, is_faulty: bool, at: u32, kind: FaultKind)
        ensures { self.new ≡ finding.after_mention self.old (fault_where is_faulty at (finding.variant_of kind)) }
    {
        if is_faulty {
            self.note(at, kind);
            self.has_faulty_mention = true;
        }
    }
}

/// Whether the first fault is answered and not the second one: it stands before it, or at its offset with a kind that
/// stands first.
fn precedes(fault: FoundFault, other: FoundFault) -> bool
    ensures { result ≡ finding.precedes (finding.fault_of fault) (finding.fault_of other) }
{
    fault.at < other.at || (fault.at == other.at && rank(fault.kind) < rank(other.kind))
}

/// The order of the kinds at one offset.
fn rank(kind: FaultKind) -> u32
    ensures { result ≡ rank_of (finding.variant_of kind) }
{
    match kind {
        FaultKind::Unknown => 0,
        FaultKind::Twice => 1,
        FaultKind::Arity => 2,
        FaultKind::Kind => 3,
        FaultKind::NoMain => 4,
        FaultKind::Frame => 5,
        FaultKind::Count => 6,
    }
}
