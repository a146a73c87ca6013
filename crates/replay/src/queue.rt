ghost use Rattle.std.specs.Prelude.{◌≡◌};
ghost use Rattle.replay.specs.Lists.{cut_list};
ghost use Rattle.replay.specs.Queues.{queued};

use orders::order::Order;

// Orders from the front of a list, with what remains of the first, if there is one.
#[derive(Clone, Copy)]
pub(crate) struct Queue<'a> {
    pub first: Option<Order>,
    rest: &'a [Order],
}

impl<'a> Queue<'a> {
    pub(crate) fn over(orders: &'a [Order]) -> Queue<'a>
        ensures { queued result ≡ orders.now }
    {
        match orders.split_first() {
            Some((first, rest)) => Queue {
                first: Some(*first),
                rest,
            },
            None => Queue {
                first: None,
                rest: orders,
            },
        }
    }

    // What is left after tonnes of the first order: one with nothing remaining leaves.
    pub(crate) fn after(self, tonnes: u32) -> Queue<'a>
        ensures { queued result ≡ cut_list tonnes (queued self.entry) }
    {
        match self.first {
            None => self,
            Some(o) if o.remaining <= tonnes => Queue::over(self.rest),
            Some(o) => Queue {
                first: Some(Order {
                    remaining: o.remaining - tonnes,
                    ..o
                }),
                ..self
            },
        }
    }
}
