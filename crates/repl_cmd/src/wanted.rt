//! A name, a number or a position where the grammar wants one, or the fault of what stands there.
ghost use Rattle.std.specs.Prelude.{◌≡◌, IfOk, IfErr};
ghost use Rattle.repl_cmd.specs.declared.fault.CmdFault.TheVariants as CmdFault;
ghost use Rattle.repl_cmd.specs.Command.{IsSlot, IsNumber, IsPosition};
ghost use Rattle.repl_cmd.specs.Wanted.{IsNoSlot, IsNoNumber, IsNoPosition};

use crate::fault::CmdFault;
use crate::name::SlotName;
use crate::token::Token;
use repl_lsn::Lsn;

impl Token {
    /// The fault of a token with which no command goes on, and nothing else is said of it.
    pub(crate) fn syntax(&self) -> CmdFault
        ensures { result ≡ CmdFault.Syntax self.now.place }
    {
        CmdFault::Syntax(self.place as u64)
    }

    /// The slot's name that is wanted here.
    pub(crate) fn wanted_slot(self) -> Result<SlotName, CmdFault>
        ensures ok { IfOk result (λ name. IsSlot name self) }
        ensures err { IfErr result (λ fault. IsNoSlot self fault) }
    {
        let fault = if self.is_naming() {
            CmdFault::BadSlotName(self.place as u64)
        } else {
            self.syntax()
        };
        self.slot_name().ok_or(fault)
    }

    /// The number that is wanted here, which is not below the least.
    pub(crate) fn wanted_number(&self, least: u32) -> Result<u32, CmdFault>
        ensures ok { IfOk result (λ n. IsNumber least n self.now) }
        ensures err { IfErr result (λ fault. IsNoNumber least self.now fault) }
    {
        match self.number(least) {
            Some(number) => Ok(number),
            None if self.is_judged() => Err(CmdFault::BadNumber(self.place as u64)),
            None => Err(self.syntax()),
        }
    }

    /// The position that is wanted here.
    pub(crate) fn wanted_position(&self) -> Result<Lsn, CmdFault>
        ensures ok { IfOk result (λ at. IsPosition at self.now) }
        ensures err { IfErr result (λ fault. IsNoPosition self.now fault) }
    {
        match self.position() {
            Some(at) => Ok(at),
            None if self.is_judged() => Err(CmdFault::BadLsn(self.place as u64)),
            None => Err(self.syntax()),
        }
    }
}
