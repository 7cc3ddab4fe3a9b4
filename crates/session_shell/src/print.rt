// The printed lines of a hub.
ghost use Rattle.std.specs.List.{flat_map};
ghost use Rattle.line_printer.specs.Carried.{Prints, told};
ghost use Rattle.session_shell.specs.Text.{AreSaid, said_text};

use crate::hub::KeptLine;
use line_printer::Printer;
use toast_io::Sink;

/// Prints lines whose replies are all known. Once a write has failed nothing more is printed.
pub fn print_lines<K: Sink>(printer: &mut Printer, sink: &mut K, kept: &[KeptLine])
    requires { AreSaid kept.now }
    ensures { Prints (told K.Sink sink.old) (told K.Sink sink.new) printer.old printer.new (flat_map said_text kept.now) }
{
    for line in kept {
        if printer.has_failed() {
            return;
        }
        match &line.reply {
            Some(reply) => printer.print_reply(sink, line.session, line.number, reply),
            None => unreachable!(),
        }
    }
}
