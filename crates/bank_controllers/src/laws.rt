//! Laws of the definitions. The functions do nothing: the contract of each is a law.
ghost use Rattle.bank_controllers.specs.Laws.{Mbc1NeverShowsFourBanks, RamReadsWhatWasWritten};

/// Law: whatever is written to an MBC1 of 128 banks, 4000 to 7FFF show none of the banks 0, 32, 64 and 96.
pub fn mbc1_never_shows_four_banks()
    ensures { Mbc1NeverShowsFourBanks }
{}

/// Law: what is written to RAM that is shown is read there, of each controller, and the other places of RAM read as before. MBC2
/// keeps the low four bits, and the upper ones read 1.
pub fn ram_reads_what_was_written()
    ensures { RamReadsWhatWasWritten }
{}
