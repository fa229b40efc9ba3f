//! Refusals of files: each cause by its number and its name.

ghost use Rattle.std.specs.Prelude.{◌≡◌};
ghost use Rattle.command_answers.specs.declared.status.Status.TheVariants.{BadFile};
ghost use Rattle.command_answers.specs.Answers.{refuses};
ghost use Rattle.command_answers.specs.Lines.{bad_delays_line, bad_net_line, bad_script_line, bad_wave_line, delay_fault_name, net_fault_name, script_fault_name, wave_fault_name};
ghost use Rattle.command_answers.specs.Replies.{refusing};

use crate::answer::Refusal;
use delay_script::DelayFault;
use env_script::ScriptFault;
use prs_file::NetFault;
use wave_file::WaveFault;

/// The name of the cause for which a rule file is refused.
fn name_of_net_fault(fault: NetFault) -> &'static str
    ensures { result.now ≡ net_fault_name fault }
{
    match fault {
        NetFault::BadLine => "BadLine",
        NetFault::UnknownNode => "UnknownNode",
        NetFault::DoubleRule => "DoubleRule",
        NetFault::DrivenWire => "DrivenWire",
        NetFault::TooMany => "TooMany",
        NetFault::BadVersion => "BadVersion",
        NetFault::OutOfOrder => "OutOfOrder",
        NetFault::DoubleName => "DoubleName",
        NetFault::BadFirst => "BadFirst",
    }
}

/// The name of the cause for which a script is refused.
fn name_of_script_fault(fault: ScriptFault) -> &'static str
    ensures { result.now ≡ script_fault_name fault }
{
    match fault {
        ScriptFault::BadLine => "BadLine",
        ScriptFault::NoSuchChannel => "NoSuchChannel",
        ScriptFault::TooWide => "TooWide",
        ScriptFault::DoubleChannel => "DoubleChannel",
        ScriptFault::TooManyValues => "TooManyValues",
    }
}

/// The name of the cause for which a delay file is refused.
fn name_of_delay_fault(fault: DelayFault) -> &'static str
    ensures { result.now ≡ delay_fault_name fault }
{
    match fault {
        DelayFault::BadLine => "BadLine",
        DelayFault::UnknownNode => "UnknownNode",
        DelayFault::TooLarge => "TooLarge",
        DelayFault::DoubleNode => "DoubleNode",
    }
}

/// The name of the cause for which a wave file is refused.
fn name_of_wave_fault(fault: WaveFault) -> &'static str
    ensures { result.now ≡ wave_fault_name fault }
{
    match fault {
        WaveFault::BadLine => "BadLine",
        WaveFault::UnknownId => "UnknownId",
        WaveFault::TimeBack => "TimeBack",
        WaveFault::NoChange => "NoChange",
        WaveFault::TooMany => "TooMany",
    }
}

/// The refusal of a rule file for this cause at this line.
pub fn bad_net<'a>(fault: NetFault, line: u32) -> Refusal<'a>
    ensures { refusing result ≡ refuses BadFile (bad_net_line fault line) }
{
    Refusal::BadFile {
        number: fault.number(),
        cause: name_of_net_fault(fault),
        line,
    }
}

/// The refusal of a script for this cause at this line.
pub fn bad_script<'a>(fault: ScriptFault, line: u32) -> Refusal<'a>
    ensures { refusing result ≡ refuses BadFile (bad_script_line fault line) }
{
    Refusal::BadFile {
        number: fault.number(),
        cause: name_of_script_fault(fault),
        line,
    }
}

/// The refusal of a delay file for this cause at this line.
pub fn bad_delays<'a>(fault: DelayFault, line: u32) -> Refusal<'a>
    ensures { refusing result ≡ refuses BadFile (bad_delays_line fault line) }
{
    Refusal::BadFile {
        number: fault.number(),
        cause: name_of_delay_fault(fault),
        line,
    }
}

/// The refusal of a wave file for this cause at this line.
pub fn bad_wave<'a>(fault: WaveFault, line: u32) -> Refusal<'a>
    ensures { refusing result ≡ refuses BadFile (bad_wave_line fault line) }
{
    Refusal::BadFile {
        number: fault.number(),
        cause: name_of_wave_fault(fault),
        line,
    }
}
