//! What is written is read.

ghost use Rattle.std.specs.Prelude.{◌≡◌, ℕ, List};
ghost use Rattle.task_script.specs.declared.script.Script.{Script};
ghost use Rattle.task_script.specs.Forest.{IsForest};
ghost use Rattle.task_script.specs.Script.{IsScript};
ghost use Rattle.task_script.specs.Valid.{IsMachine, IsRoom, AreNames, names_of, AllBegin, AreCustoms};
ghost use Rattle.script_writer.specs.Spelling.{spelled, IsWithin};

use task_script::law_script;

/// Of each script whose spelling is within the limits of a script, and whose caller brings so many works, `customs`. If
/// it is valid, its spelling is that script. So the spelling of a script that some bytes are is that script and no
/// other: `read_script` reads what `write_script` wrote as the script that was written. And two such scripts with one
/// spelling are one script. A law: the call does nothing.
pub fn law_spelling()
    ensures valid { (customs : ℕ) (s : Script) → IsMachine s.shape s.tasks → IsRoom s.room → IsForest s.tasks
        → AreNames (names_of s.tasks) → AllBegin s.tasks → AreCustoms customs s.tasks → IsWithin s
        → IsScript customs (spelled s) s }
    ensures read_back { (customs : ℕ) (bytes : List ℕ) (s : Script) → IsScript customs bytes s → IsWithin s
        → IsScript customs (spelled s) s }
    ensures only { (customs : ℕ) (bytes : List ℕ) (s t : Script) → IsScript customs bytes s → IsWithin s
        → IsScript customs (spelled s) t → t ≡ s }
    ensures apart { (customs more : ℕ) (bytes others : List ℕ) (s t : Script) → IsScript customs bytes s
        → IsScript more others t → IsWithin s → IsWithin t → spelled s ≡ spelled t → s ≡ t }
{
    law_script()
}
