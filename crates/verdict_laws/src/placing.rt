//! The law of where a CPU is: its own replies say it. There it is replied what such calls are in some state.

ghost use Rattle.std.specs.Prelude.{◌≡◌, ℕ, false, [], take};
ghost use Rattle.rmm_spec.specs.declared.command.Command.{Command};
ghost use Rattle.rmm_spec.specs.declared.reply.Reply.{Reply};
ghost use Rattle.rmm_spec.specs.Call.{call_of};
ghost use Rattle.rmm_spec.specs.HistoryText.{History, IsHistory};
ghost use Rattle.rmm_spec.specs.Linearization.{IsCalled, IsReturned};
ghost use Rattle.verdict_laws.specs.Order.{LeadsNowhere};
ghost use Rattle.verdict_laws.specs.Parts.{first_part};
ghost use Rattle.verdict_laws.specs.Placing.{StandsBefore, may_be_replied};

/// Where a CPU is.
#[derive(Clone, Copy)]
pub enum Standing {
    /// With its host.
    Outside,
    /// Inside of the REC at the address, which would leave for that reason.
    Inside { rec: u64, reason: ExitReason },
}

/// Why a REC leaves.
#[derive(Clone, Copy)]
pub enum ExitReason {
    /// It was interrupted: it waits for nothing.
    Interrupt,
    /// It turned itself or its realm off by that function of PSCI.
    Psci { function: u64 },
    /// It asked its host for a RIPAS, by its number, from base up to top, in bytes.
    RipasChange { base: u64, top: u64, ripas: u64 },
    /// It called its host with the number.
    HostCall { imm: u64 },
}

/// First events of a history, so many, have no order where one of their returns has a reply that isn't given where its CPU is.
pub fn nowhere_out_of_place()
    ensures { (history : History) (count cpu number called returned : ℕ) (command : Command) (given : Reply) (standing : Standing)
        → IsHistory history → IsCalled history.events called cpu number command
        → IsReturned (take count history.events) returned cpu number given
        → StandsBefore (take count history.events) cpu number standing
        → may_be_replied (call_of command) standing given ≡ false → LeadsNowhere (first_part count history) [] }
{}
