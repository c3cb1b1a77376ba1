//! The host calls of the serial engines.
ghost use Rattle.std.specs.Prelude.{◌≡◌, ◌≤◌, ◌<◌, ◌+◌, ◌∷◌, [], IfOk, IfSome};
ghost use Rattle.std.specs.Option.{option_to_list};
ghost use Rattle.wasm_code.specs.declared.types.ValType.TheVariants as types;
ghost use Rattle.wasm_semantics.specs.Values.{HasTypes};
ghost use Rattle.chip_engines.specs.Engine.{IsEngine};
ghost use Rattle.chip_host.specs.Inventory.{left};
ghost use Rattle.chip_host.specs.HostCall.{engine_of, given_pin, no_calls, two_words, four_words, uart_from, spi_from, i2c_from, engine_init, write_uart, start_spi, stop_spi, uarts, spis, i2cs};

use crate::host::ChipHost;
use chip_abi::read_word;
use chip_engines::{Callbacks, Engine, Pins, Serial};
use wasm_num::{Memory, Trap, Value};

// Where the engines of each kind begin.
const UARTS: u32 = 0;

const SPIS: u32 = 8;

const I2CS: u32 = 16;

fn no_calls() -> Callbacks
    ensures { result ≡ no_calls }
{
    Callbacks {
        received: 0,
        sent: 0,
        done: 0,
        connect: 0,
        read: 0,
        write: 0,
        disconnect: 0,
    }
}

fn two_words(memory: &Memory, addr: u32, from: u32) -> Result<(u32, u32), Trap>
    requires { from < 32 }
    ensures { result ≡ two_words memory.now addr from }
{
    let first = read_word(memory, addr, from)?;
    let second = read_word(memory, addr, from + 4)?;
    Ok((first, second))
}

fn four_words(memory: &Memory, addr: u32, from: u32) -> Result<((u32, u32), (u32, u32)), Trap>
    requires { from < 24 }
    ensures { result ≡ four_words memory.now addr from }
{
    let first = two_words(memory, addr, from)?;
    let second = two_words(memory, addr, from + 8)?;
    Ok((first, second))
}

impl ChipHost {
    // The engine of a kind with an id.
    fn engine_of(&self, base: u32, id: u32) -> Option<Engine>
        requires { base ≤ 16 }
        ensures engine { result ≡ engine_of base id self.now.inventory }
        ensures sound { IfSome result IsEngine }
        ensures few { IfSome result (λ e. id < 8) }
    {
        if id < 8 {
            self.engine((base + id) as usize)
        } else {
            None
        }
    }

    // A pin that `pinInit` gave; none stands for a pin of -1.
    fn given_pin(&self, i: u32) -> Option<u32>
        ensures { result ≡ given_pin self.now.inventory i }
    {
        match self.pin(i) {
            Some(_) => Some(i),
            None => None,
        }
    }

    fn read_uart(&self, addr: u32, memory: &Memory) -> Result<Engine, Trap>
        ensures value { result ≡ uart_from memory.now addr self.now.inventory }
        ensures sound { IfOk result IsEngine }
    {
        let ((user, rx), (tx, baud)) = four_words(memory, addr, 0)?;
        let (received, sent) = two_words(memory, addr, 16)?;
        let pins = Pins {
            first: self.given_pin(rx),
            second: None,
            out: self.given_pin(tx),
        };
        let calls = Callbacks {
            received,
            sent,
            ..no_calls()
        };
        Ok(Engine::new(Serial::uart(baud), pins, user, calls))
    }

    fn read_spi(&self, addr: u32, memory: &Memory) -> Result<Engine, Trap>
        ensures value { result ≡ spi_from memory.now addr self.now.inventory }
        ensures sound { IfOk result IsEngine }
    {
        let ((user, sck), (mosi, miso)) = four_words(memory, addr, 0)?;
        let (mode, done) = two_words(memory, addr, 16)?;
        let pins = Pins {
            first: self.given_pin(sck),
            second: self.given_pin(mosi),
            out: self.given_pin(miso),
        };
        let calls = Callbacks { done, ..no_calls() };
        Ok(Engine::new(Serial::spi(mode), pins, user, calls))
    }

    fn read_i2c(&self, addr: u32, memory: &Memory) -> Result<Engine, Trap>
        ensures value { result ≡ i2c_from memory.now addr self.now.inventory }
        ensures sound { IfOk result IsEngine }
    {
        let ((user, address), (scl, sda)) = four_words(memory, addr, 0)?;
        let ((connect, read), (write, disconnect)) = four_words(memory, addr, 16)?;
        let pins = Pins {
            first: self.given_pin(scl),
            second: self.given_pin(sda),
            out: self.given_pin(sda),
        };
        let calls = Callbacks {
            connect,
            read,
            write,
            disconnect,
            ..no_calls()
        };
        Ok(Engine::new(Serial::i2c(address), pins, user, calls))
    }

    // A further engine of a kind, by what was read of its configuration.
    fn engine_init(&mut self, base: u32, read: Result<Engine, Trap>) -> Result<Option<Value>, Trap>
        requires base { base ≤ 16 }
        requires sound { IfOk read IsEngine }
        ensures answer { result ≡ (engine_init self.old.moment base read self.old.inventory).answer }
        ensures after { self.new ≡ left self.old (engine_init self.old.moment base read self.old.inventory).inventory }
        ensures gives { IfOk result (λ v. HasTypes (option_to_list v) (types.I32 ∷ [])) }
    {
        if !self.is_set_up() {
            return Err(Trap::HostPhase);
        }
        match self.free_id(base) {
            None => Err(Trap::HostLimit),
            Some(id) => match read {
                Err(trap) => Err(trap),
                Ok(engine) => {
                    self.set_engine((base + id) as usize, engine);
                    Ok(Some(Value::I32(id)))
                }
            },
        }
    }

    pub fn uart_init(&mut self, addr: u32, memory: &Memory) -> Result<Option<Value>, Trap>
        ensures answer { result ≡ (engine_init self.old.moment uarts (uart_from memory.now addr self.old.inventory) self.old.inventory).answer }
        ensures after { self.new ≡ left self.old (engine_init self.old.moment uarts (uart_from memory.now addr self.old.inventory) self.old.inventory).inventory }
        ensures gives { IfOk result (λ v. HasTypes (option_to_list v) (types.I32 ∷ [])) }
    {
        let read = self.read_uart(addr, memory);
        self.engine_init(UARTS, read)
    }

    pub fn spi_init(&mut self, addr: u32, memory: &Memory) -> Result<Option<Value>, Trap>
        ensures answer { result ≡ (engine_init self.old.moment spis (spi_from memory.now addr self.old.inventory) self.old.inventory).answer }
        ensures after { self.new ≡ left self.old (engine_init self.old.moment spis (spi_from memory.now addr self.old.inventory) self.old.inventory).inventory }
        ensures gives { IfOk result (λ v. HasTypes (option_to_list v) (types.I32 ∷ [])) }
    {
        let read = self.read_spi(addr, memory);
        self.engine_init(SPIS, read)
    }

    pub fn i2c_init(&mut self, addr: u32, memory: &Memory) -> Result<Option<Value>, Trap>
        ensures answer { result ≡ (engine_init self.old.moment i2cs (i2c_from memory.now addr self.old.inventory) self.old.inventory).answer }
        ensures after { self.new ≡ left self.old (engine_init self.old.moment i2cs (i2c_from memory.now addr self.old.inventory) self.old.inventory).inventory }
        ensures gives { IfOk result (λ v. HasTypes (option_to_list v) (types.I32 ∷ [])) }
    {
        let read = self.read_i2c(addr, memory);
        self.engine_init(I2CS, read)
    }

    pub fn uart_write(
        &mut self,
        id: u32,
        buffer: u32,
        count: u32,
        memory: &Memory,
    ) -> Result<Option<Value>, Trap>
        ensures answer { result ≡ (write_uart (engine_of uarts id self.old.inventory) id buffer count self.old.moment memory.now self.old.inventory).answer }
        ensures after { self.new ≡ left self.old (write_uart (engine_of uarts id self.old.inventory) id buffer count self.old.moment memory.now self.old.inventory).inventory }
        ensures gives { IfOk result (λ v. HasTypes (option_to_list v) (types.I32 ∷ [])) }
    {
        match self.engine_of(UARTS, id) {
            None => Ok(Some(Value::I32(0))),
            Some(engine) => {
                if !memory.has(buffer, count) {
                    return Err(Trap::HostAddress);
                }
                if engine.is_busy() {
                    return Ok(Some(Value::I32(0)));
                }
                let engine = engine.sends(self.cycle(), self.is_set_up(), buffer, count);
                self.set_engine((UARTS + id) as usize, engine);
                Ok(Some(Value::I32(1)))
            }
        }
    }

    pub fn spi_start(
        &mut self,
        id: u32,
        buffer: u32,
        count: u32,
        memory: &Memory,
    ) -> Result<Option<Value>, Trap>
        ensures answer { result ≡ (start_spi (engine_of spis id self.old.inventory) id buffer count self.old.moment memory.now self.old.inventory).answer }
        ensures after { self.new ≡ left self.old (start_spi (engine_of spis id self.old.inventory) id buffer count self.old.moment memory.now self.old.inventory).inventory }
        ensures gives { IfOk result (λ v. HasTypes (option_to_list v) []) }
    {
        match self.engine_of(SPIS, id) {
            None => Ok(None),
            Some(engine) => {
                if !memory.has(buffer, count) {
                    return Err(Trap::HostAddress);
                }
                if count == 0 || engine.is_busy() {
                    return Ok(None);
                }
                let engine = engine.exchanges(self.cycle(), buffer, count);
                self.set_engine((SPIS + id) as usize, engine);
                Ok(None)
            }
        }
    }

    pub fn spi_stop(&mut self, id: u32) -> Result<Option<Value>, Trap>
        ensures answer { result ≡ (stop_spi (engine_of spis id self.old.inventory) id self.old.moment self.old.inventory).answer }
        ensures after { self.new ≡ left self.old (stop_spi (engine_of spis id self.old.inventory) id self.old.moment self.old.inventory).inventory }
        ensures gives { IfOk result (λ v. HasTypes (option_to_list v) []) }
    {
        if let Some(engine) = self.engine_of(SPIS, id) {
            let engine = engine.stops(self.cycle());
            self.set_engine((SPIS + id) as usize, engine);
        }
        Ok(None)
    }
}
