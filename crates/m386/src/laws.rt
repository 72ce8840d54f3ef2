//! What is an answer of a call, and what is none.
ghost use Rattle.std.specs.Prelude.{◌≡◌, ◌≤◌, ℕ, List, [], Result, Ok, Err, Some, None, length};
ghost use Rattle.m386_image.specs.Fault.{FirstFault};
ghost use Rattle.m386_image.specs.Format.{ImageOf};
ghost use Rattle.m386_image.specs.declared.fault.ImageFault.{ImageFault as FaultData};
ghost use Rattle.m386_image.specs.declared.image.Image.{Image as ImageData};
ghost use Rattle.m386.specs.Top.{Edges, IsAnswer, most_bytes, refusal};
ghost use Rattle.m386.specs.declared.status.Status.TheVariants as statuses;
ghost use Rattle.m386_calls.specs.declared.usage.UsageKind.{UsageKind as KindData};
ghost use Rattle.m386_calls.specs.declared.call.Asked.{Asked as AskedData};
ghost use Rattle.m386_calls.specs.declared.call.Call.{Call as CallData};
ghost use Rattle.m386_calls.specs.declared.call.Call.TheVariants.{Assemble, Run, Soak};

/// What the definition of an answer allows, and what it doesn't. Words that are refused are answered by the name of that, with
/// source and output as they were, and an input with a fault by that fault. No usage fault answers valid words over an image
/// that allows what they ask for; and `Done` answers no image with a fault where a run is asked for, and no call that left the output as it was. The
/// function does nothing; its clauses are the laws.
pub fn answer_laws()
    ensures refused { (meant : Result CallData KindData) (edges : Edges) (kind : KindData) → meant ≡ Err kind
        → IsAnswer meant edges edges (statuses.Usage kind) }
    ensures valid { (meant : Result CallData KindData) (old new : Edges) (asked : AskedData) (bytes : List ℕ) (image : ImageData) (kind : KindData)
        → meant ≡ Ok (Run asked) → old.left ≡ Some bytes → ImageOf bytes image → refusal image asked ≡ None
        → ¬ IsAnswer meant old new (statuses.Usage kind) }
    ensures faulty { (meant : Result CallData KindData) (edges : Edges) (asked : AskedData) (bytes : List ℕ) (fault : FaultData)
        → meant ≡ Ok (Run asked) → edges.left ≡ Some bytes → length bytes ≤ most_bytes → FirstFault bytes fault
        → IsAnswer meant edges (record edges { left = Some [] }) (statuses.Image fault) }
    ensures not_done { (meant : Result CallData KindData) (old new : Edges) (bytes : List ℕ) (fault : FaultData)
        → ((number : ℕ) → ¬ (meant ≡ Ok (Soak number))) → ¬ (meant ≡ Ok Assemble) → old.left ≡ Some bytes → FirstFault bytes fault → ¬ IsAnswer meant old new statuses.Done }
    ensures silent { (meant : Result CallData KindData) (old new : Edges) (held : List ℕ)
        → old.held ≡ Some held → new.held ≡ old.held → ¬ IsAnswer meant old new statuses.Done }
{}
