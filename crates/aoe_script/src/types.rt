//! What the types of its fields say of a line. Contracts see bytes and numbers without a bound;
//! these functions do nothing but tell them the bounds.
ghost use Rattle.std.specs.Prelude.{All};
ghost use Rattle.aoe_script.specs.Types.{FitsEvent, FitsLoss, FitsSetup, IsAddress, IsByte};

use crate::event::Event;
use crate::setup::Setup;
use aoe_base::Mac;
use aoe_disk::Loss;
use aoe_lists::Dir;

/// Each is below 256.
fn bytes_fit(bytes: &[u8])
    ensures { All IsByte bytes.now }
{}

/// An address has six bytes.
fn address_fits(mac: &Mac)
    ensures { IsAddress mac.now }
{
    bytes_fit(&mac.0);
}

/// Each of them has six bytes.
fn addresses_fit(macs: &[Mac])
    ensures { All IsAddress macs.now }
{
    'macs: for mac in macs {
        address_fits(mac);
    }
}

/// The address of each directive has six bytes.
fn directives_fit(dirs: &[Dir])
    ensures { All (λ dir. IsAddress dir.mac) dirs.now }
{
    'dirs: for dir in dirs {
        address_fits(&dir.mac);
    }
}

/// The choice of a loss has 64 bits.
fn loss_fits(mode: Loss)
    ensures { FitsLoss mode }
{
    if let Loss::Mix(_x) = mode {}
}

impl Setup {
    /// Each field fits its type.
    pub(crate) fn fields_fit(&self)
        ensures { FitsSetup self.now }
    {
        match self {
            Setup::Shelf { ports, .. } => addresses_fit(ports.as_slice()),
            Setup::Host { ports, .. } => addresses_fit(ports.as_slice()),
            _ => {}
        }
    }
}

impl Event {
    /// Each field fits its type.
    pub(crate) fn fields_fit(&self)
        ensures { FitsEvent self.now }
    {
        match self {
            Event::Write { fill, .. } => {
                let _fill = *fill;
            }
            Event::Config { text, .. } => bytes_fit(text.bytes()),
            Event::Masks { dirs, .. } => directives_fit(dirs.as_slice()),
            Event::Reserve { list, .. } => addresses_fit(list.as_slice()),
            Event::Inject { bytes } => bytes_fit(bytes.bytes()),
            Event::Stop { mode, .. } => loss_fits(*mode),
            Event::Crash { mode, .. } => loss_fits(*mode),
            _ => {}
        }
    }
}
