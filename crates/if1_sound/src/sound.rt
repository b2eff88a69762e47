//! Units that are known to have sound marks.
ghost use Rattle.std.specs.Prelude.{◌≡◌};
ghost use Rattle.if1_graph.specs.Normal.{IsNormal};
ghost use Rattle.if1_graph.specs.Ready.{IsReady};
ghost use Rattle.if1_marks.specs.Sound.{IsSound};

use if1_graph::Unit1;
use if1_valid::Ready;
use std::marker::Model;

/// A valid unit in normal order whose marks are sound.
#[derive(Drop)]
pub struct Sound {
    ready: Ready,
}

impl Model for Sound {
    ghost use Rattle.std.specs.Coded.{codes};
    ghost use Rattle.if1_graph.specs.contracts.graph.Graph as graph;
    ghost use Rattle.if1_graph.specs.declared.graph.Unit1.{Unit1};
    ghost use Rattle.if1_marks.specs.Sound.{IsSound};

    ghost Value = { Unit1 };

    ghost coded = { Prim.hlevel (codes, graph.the_row.coded) };

    ghost view = { λ s. s.ready };

    ghost invariant = { λ s. IsSound s.ready };
}

impl Sound {
    /// A valid unit whose marks are sound.
    pub fn of(ready: Ready) -> Sound
        requires { IsSound ready }
        ensures { result ≡ ready }
    {
        Sound { ready }
    }

    /// The unit.
    pub fn unit(&self) -> &Unit1
        ensures unit { result.now ≡ self.now }
        ensures sound { IsSound self.now }
        ensures ready { IsReady self.now }
        ensures normal { IsNormal self.now }
    {
        self.ready.unit()
    }

    /// The unit, of which it is no longer known that its marks are sound.
    pub fn into_ready(self) -> Ready
        ensures unit { result ≡ self }
        ensures sound { IsSound self }
    {
        self.ready
    }
}
