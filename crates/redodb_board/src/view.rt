use std::marker::Model;

/// What a seat knows of the board. Only proofs use it; no value of it is made.
pub struct View {
    _none: (),
}

impl Model for View {
    ghost use Rattle.redodb_board.specs.Views.{ViewOf};
    ghost use Rattle.redodb_board.specs.Support.Views.{nobody};

    ghost Value = { ViewOf };

    ghost view = { λ _. nobody };
}
