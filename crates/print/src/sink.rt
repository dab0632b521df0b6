ghost use Rattle.print.specs.Printed.{Page, Printed};

use list::Memory;

// Where text is printed to. Nothing is said of a sink after a refusal.
pub trait Sink {
    // How many bytes fit, and the list that takes them, if there is one.
    ghost page: { Self → Page };

    // Refused where the bytes do not fit.
    fn put(&mut self, bytes: &[u8]) -> Result<(), Memory>
        ensures { Printed (page self.old) bytes.now result (page self.new) };
}
