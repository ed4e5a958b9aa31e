//! What a run keeps.

ghost use Rattle.std.specs.Prelude.{◌≡◌, IfOk, []};
ghost use Rattle.circular_buffer.specs.Buffer.{buffer};

use crate::needs::Needs;
use msg_core::Headers;
use pool_message::{Messages, PoolRow};
use std::alloc::{AllocError, Global};

/// What a run keeps, which is nothing between two runs. Its places are chosen once.
pub struct Values {
    /// The numbers that were made.
    pub numbers: Vec<u32>,
    /// The messages that were made.
    pub messages: Messages,
    /// The body of the input as a message, once it stands in the pool.
    pub body: Messages,
    /// The rows that were taken.
    pub rows: Vec<PoolRow>,
    /// The headers of what leaves, while it leaves.
    pub heads: Headers,
}

/// Messages, and room for one.
struct Piles {
    messages: Messages,
    body: Messages,
}

impl Piles {
    fn fresh(alloc: Global, messages: usize) -> Result<Piles, AllocError>
        ensures { IfOk result (λ p. (p.messages ≡ buffer [] messages) × (p.body ≡ buffer [] 1)) }
    {
        let body = Messages::with_places(alloc, 1)?;
        match Messages::with_places(alloc, messages) {
            Ok(messages) => Ok(Piles { messages, body }),
            Err(error) => {
                body.close();
                Err(error)
            }
        }
    }

    fn close(self)
        requires { (self.messages.items ≡ []) × (self.body.items ≡ []) }
    {
        let Piles { messages, body } = self;
        messages.close();
        body.close();
    }
}

impl Values {
    ghost use Rattle.std.specs.Prelude.{IfOk};
    ghost use Rattle.code_tests.specs.Registers.{HasPlaces, IsEmpty, needed_room};

    /// Nothing, with places for what is needed. Err comes where memory runs out.
    pub fn with_room(alloc: Global, needs: Needs) -> Result<Values, AllocError>
        ensures { IfOk result (λ v. IsEmpty v × HasPlaces (needed_room needs) v) }
    {
        let numbers = Vec::with_capacity(alloc, needs.numbers)?;
        let piles = Piles::fresh(alloc, needs.messages)?;
        match Vec::with_capacity(alloc, needs.rows) {
            Ok(rows) => {
                let Piles { messages, body } = piles;
                Ok(Values {
                    numbers,
                    messages,
                    body,
                    rows,
                    heads: Headers::new(),
                })
            }
            Err(error) => {
                piles.close();
                Err(error)
            }
        }
    }

    /// Ends what keeps nothing.
    pub fn close(self)
        requires { IsEmpty self }
    {
        let Values {
            numbers: _,
            messages,
            body,
            rows,
            heads: _,
        } = self;
        messages.close();
        body.close();
        rows.destroy_empty();
    }
}
