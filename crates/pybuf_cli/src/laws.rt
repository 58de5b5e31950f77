//! Laws of the definitions that the contracts cite. Each stands on a function that only calls other laws.
ghost use Rattle.pybuf_cli.specs.Laws.{RunsStaySingle, ScriptsAreSpelled, ScriptsAreRun};

use pybuf_line::{commands_read_back, replies_are_single_lines};
use pybuf_world::world_shown_texts_are_one_line;

/// The text of each reply of a run is one line, of whatever commands in whatever world and whatever the
/// names of handles are, if each of these is one line.
///
/// Example: the reply to `bytes h0` of `b"a\n"` is `b'a\n'`, with a backslash and an `n` in place of the line feed.
pub fn runs_reply_single_lines()
    ensures { RunsStaySingle }
{
    replies_are_single_lines();
    world_shown_texts_are_one_line();
}

/// The commands of a script are those of the lines of its text, which isn't too long to be read. So
/// `make` with a number tells what counting the replies of `run` on that text would give.
///
/// Example: the script of 1 is that of the lines `new bytearray x`, `append h0 3` and `bytes h0`.
pub fn scripts_are_spelled()
    ensures spelled { ScriptsAreSpelled }
    ensures run { ScriptsAreRun }
{
    commands_read_back();
    replies_are_single_lines();
}
