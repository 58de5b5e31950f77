//! Laws of lines of sessions.
ghost use Rattle.pybuf_sessions.specs.Laws.{SessionsAreRunnable, SessionsAreOfLines, WrongLineIsFirst, SessionLinesReadBack, OpeningsReadBack};

use pybuf_line::commands_read_back;

/// An input has scripts for 1 to 16 sessions, and what is lent to their commands fits.
///
/// Example: `new bytearray x6162` and `1 len own` have scripts for the sessions 0 and 1.
pub fn sessions_are_runnable()
    ensures { SessionsAreRunnable }
{}

/// The sessions of an input are those of its lines: the first gives the exporter, each of the others asks something of
/// one of the sessions, and the script of each session is what is asked of it, in order, and no more. Where a line is
/// wrong, the number that is told is that of the first.
///
/// Example: of `new bytearray x6162`, `0 len own` and `1 view own` the script of session 1 is `view own` alone.
pub fn sessions_are_of_lines()
    ensures each { SessionsAreOfLines }
    ensures first { WrongLineIsFirst }
{}

/// A command of a session that was written with names is read back: its handles are numbered, from the left, and lent as
/// what they name. So is a first line.
///
/// Example: the command of session 0 for the length of the exporter is written as `0 len own`, which is read as it.
pub fn session_lines_read_back()
    ensures commands { SessionLinesReadBack }
    ensures openings { OpeningsReadBack }
{
    commands_read_back();
}
