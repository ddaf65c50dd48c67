//! A port of one actor over the shared state.
ghost use Rattle.std.specs.Prelude.{◌≡◌, ◌<◌, ◌≤◌, length, None};
ghost use Rattle.cps_port.specs.Entries.{most_rows};
ghost use Rattle.cps_port.specs.Shared.{actor_count, board_part};

use crate::entry::{Entry, Share, Taken};
use crate::port::Port;
use crate::state::CoreState;
use cps_literal::Atom;
use cps_model::Bound;

/// An actor's access to the shared state; no other actor can use the state while the port exists. The actor has drawn
/// no row that it has not published. Each call is one or more lawful events of this actor.
pub struct PlainPort<'a, 'm> {
    /// The state that all actors share.
    pub core: &'a mut CoreState<'m>,
    /// The actor's number, below the count of actors.
    pub actor: u32,
    ghost known: { actor < actor_count core.now },
    ghost idle: { (board_part core.now.board actor).drawn ≡ None },
    ghost few: { length core.now.board.rows ≤ most_rows },
}

impl Port for PlainPort<'_, '_> {
    ghost use Rattle.std.specs.Prelude.{length};
    ghost use Rattle.cps_port.specs.Shared.{part_at};
    ghost use Rattle.cps_port.specs.Others.{ActsAlone, unmoved, moved_on};

    ghost model = { λ p. p.core.now.model };

    ghost rows = { λ p. length p.core.now.board.rows };

    ghost part = { λ p. part_at p.core.now p.actor };

    ghost stays = { λ p q. ActsAlone p.actor q.actor p.core.now q.core.now };

    ghost few = { λ p. p.few };

    ghost none_drawn = { λ p. p.idle };

    ghost unmoved = { λ p. unmoved p.actor p.core.now };

    ghost moved_on = { λ p q r. moved_on p.actor q.actor r.actor p.core.now q.core.now r.core.now };

    fn upper(&mut self) -> Bound {
        self.core.see_upper(self.actor)
    }

    fn lower(&mut self) -> Bound {
        self.core.see_lower(self.actor)
    }

    fn offer(&mut self, value: i64) -> Bound {
        self.core.offer(self.actor, value)
    }

    fn raise(&mut self, value: Bound) -> Bound {
        self.core.raise(self.actor, value)
    }

    fn share(&mut self, below: Bound, clause: &[Atom]) -> Share {
        if self.core.is_full(self.actor) {
            return Share::Full;
        }
        let Some(row) = self.core.draw(self.actor) else {
            return Share::Full;
        };
        let entry = Entry::of(row, below, clause);
        self.core.publish(self.actor, entry);
        Share::Row(row)
    }

    fn take(&mut self) -> Taken {
        if !self.core.has_more(self.actor) {
            return Taken::End;
        }
        match self.core.look(self.actor) {
            Some(entry) => Taken::Entry(entry),
            None => Taken::NotYet,
        }
    }
}
