//! What `--help` and `--version` say.

/// What `--version` says.
pub const VERSION: &[u8] = b"lens 1\n";

/// What `--help` says.
pub const HELP: &[u8] = b"lens: shows what a program, a scenario, a trace and an image hold

    lens tree < SCENARIO              the tree of spaces with their objects, at the beginning
    lens tree NAME K < SCENARIO       the same after K moves of the trace NAME.trc
    lens steps NAME < SCENARIO        the trace NAME.trc with what each move does: columns by tabs
    lens steps NAME A B < SCENARIO    the same of the moves A to B, the last one included
    lens why NAME K < SCENARIO        after K moves of NAME.trc: why threads aren't ready, and who could end that
    lens sums NAME < SCENARIO         what went wrong in the run of NAME.trc: faults, refused calls, jobs that failed, who can't move
    lens record NAME < SCENARIO       the record NAME.rec beside the moves of NAME.trc that made it: columns by tabs
    lens image NAME                   the image NAME.img, one thing a line
    lens image NAME OTHER             the lines by which NAME.img and OTHER.img differ: - NAME alone, + OTHER alone
    lens words < PROGRAM              the program's text, each word as a line that assembles to it
    lens page NAME < SCENARIO         the run of NAME.trc as one HTML page
    lens plain < SCENARIO             the scenario without the names that its programs use, as fluke takes it
    lens hunt N < SCENARIO            runs N schedules drawn at random: the trace to the rarest end; all ends on standard error
    lens hunt N SEED < SCENARIO       the same from the schedule SEED on, 1 where none is given; N 1 makes that one again
    lens hunt N --until W < SCENARIO  the trace of the first schedule that ends quiet, by a fault, or with the text W in its line
    lens diff NAME OTHER < SCENARIO   the first move in which two traces differ, but for their order, and what came before it
    lens --help                       this text
    lens --version                    the program's version

Files are those of the current folder. A NAME is 1 to 32 of a to z, 0 to 9 and _. Moves are counted from 0.
The exit status is 0 where something was shown, 1 where what was given can't be shown, 2 where the words are
none of these, 3 where something couldn't be read or written, and 4 where memory ran out. All but 0 come with a
line on standard error.
";
