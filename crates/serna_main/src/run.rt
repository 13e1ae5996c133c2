ghost use Rattle.std.specs.Prelude.{◌≡◌, false, map};
ghost use Rattle.serna_outside.specs.Outside.{Appends, Rose};
ghost use Rattle.plain_editor.specs.Editor.{opened, replies};
ghost use Rattle.live_editor.specs.Held.{IsSoundEditor};
ghost use Rattle.page_print.specs.Outside.{AppendsFront};
ghost use Rattle.serna_main.specs.Endings.{IsRun};
ghost use Rattle.serna_main.specs.declared.status.Status.TheVariants as status;

use crate::Status;
use live_editor::Editor;
use page_print::offer;
use serna_kinds::NameTable;
use serna_outside::Sink;
use source_tree::SourceTree;
use std::alloc::Global;
use style_sheet::Style;
use tree_lines::Line;

/// Opens the editor of a source whose names are numbers of a table, as are those of the stylesheet, has it obey each command
/// of a script in turn, and stops at the first reply that is not written whole. Each line of a reply is offered to the sink as
/// one piece. What was written is a front of the replies to all.
pub(crate) fn run_script<K: Sink>(
    alloc: Global,
    names: NameTable,
    style: &Style,
    source: SourceTree,
    script: &[Line],
    sink: &mut K,
) -> Status
    requires { IsSoundEditor (opened names source.source) }
    ensures ok { result ≡ status.Ok → Appends (K.held sink.old) (K.held sink.new) (replies style.now (opened names source.source) (map (λ line. line.bytes) script.now)) }
    ensures kept { result ≡ status.Ok → K.faults sink.new ≡ K.faults sink.old }
    ensures front { AppendsFront (K.held sink.old) (K.held sink.new) (replies style.now (opened names source.source) (map (λ line. line.bytes) script.now)) }
    ensures write_fault { result ≡ status.WriteFault → Rose (K.faults sink.old) (K.faults sink.new) }
    ensures unfinished { result ≡ status.WriteFault → K.is_finished sink.new ≡ false }
    ensures only { IsRun result }
{
    let mut editor = Editor::open(alloc, names, source);
    'commands: for line in script {
        let Ok(text) = editor.obey(alloc, style, line.bytes.as_slice()) else {
            return Status::NoMemory;
        };
        if !offer(text.as_str(), sink) {
            return Status::WriteFault;
        }
    }
    Status::Ok
}
