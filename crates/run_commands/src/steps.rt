//! What comes before a run and behind it: the source's scenario, and the text to the sink.

ghost use Rattle.std.specs.Prelude.{◌≡◌, ◌≢◌, ◌⊎◌, ◌+◌, ℕ, List, ◌++◌, length, IfOk, IfErr, OnOk, Err};
ghost use Rattle.std.specs.Io.KnownBytes.{Appends};
ghost use Rattle.devices.specs.Sink.{HoldsBeginning};
ghost use Rattle.devices.specs.Source.{Gives, GivesWhole, reading};
ghost use Rattle.run_commands.specs.Plays.{IsCaused, IsStated, MayRefuse, OnRead, failures_of};

use crate::play_fault::PlayFault;
use devices::{Sink, Source, read_text, write_whole};
use scenario::{Scenario, read_scenario};
use std::alloc::Global;

/// Reads a source to its end, and then the scenario that its bytes state.
pub(crate) fn scenario_from<S: Source>(alloc: Global, source: &mut S) -> Result<Scenario, PlayFault>
    ensures read { (text : List ℕ) × Gives S.gives source.old text source.new }
    ensures ends { OnRead result (S.is_ended source.new) }
    ensures stated { IfOk result (λ scenario. IsStated (GivesWhole S.gives (S.left source.old) source.old source.new) scenario) }
    ensures caused { IfErr result (IsCaused (GivesWhole S.gives (S.left source.old) source.old source.new)) }
    ensures memory { result ≡ Err PlayFault.NoMemory → MayRefuse (reading S.gives S.is_ended S.left S.refuses S.failures source.old source.new) }
    ensures failures { S.failures source.new ≡ S.failures source.old + (failures_of result).source }
    ensures unwritten { IfErr result (λ fault. (fault ≢ PlayFault.Write) × (fault ≢ PlayFault.Thread) × (fault ≢ PlayFault.Disagrees)) }
{
    let bytes = read_text(alloc, source)?;
    Ok(read_scenario(alloc, bytes.as_slice())?)
}

/// Writes a text. The sink makes room for all of it before the first byte.
pub(crate) fn write_text<K: Sink>(text: &[u8], sink: &mut K) -> Result<(), PlayFault>
    ensures ok { OnOk result (K.taken sink.new ≡ K.taken sink.old ++ text.now) }
    ensures held { OnOk result (Appends (K.contents sink.old) (K.contents sink.new) text.now) }
    ensures torn { result ≡ Err PlayFault.Write → HoldsBeginning text.now
        (K.taken sink.old) (K.taken sink.new) (K.contents sink.old) (K.contents sink.new) }
    ensures silent { result ≡ Err PlayFault.NoMemory → K.taken sink.new ≡ K.taken sink.old }
    ensures untouched { result ≡ Err PlayFault.NoMemory → K.contents sink.new ≡ K.contents sink.old }
    ensures failures { K.failures sink.new ≡ K.failures sink.old + (failures_of result).sink }
    ensures faults { IfErr result (λ fault. (fault ≡ PlayFault.Write) ⊎ (fault ≡ PlayFault.NoMemory)) }
{
    sink.make_room(text.len())?;
    write_whole(text, sink)?;
    Ok(())
}
