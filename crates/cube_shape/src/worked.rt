// The shape of the pay cube, written by the definition alone.
ghost use Rattle.std.specs.Prelude.{◌≡◌, codes};
ghost use Rattle.cube_model.specs.Cores.{shown};
ghost use Rattle.cube_shape.specs.Examples.{pay_cube, pay_policy};
ghost use Rattle.cube_shape.specs.ShapeText.{shape_text};

/// The shape of the pay cube, byte for byte.
pub fn worked_shape()
    ensures { shape_text pay_cube.dims (shown pay_cube pay_policy) ≡ codes "{\"dimensions\":[{\"levels\":[\"city\",\"area\"],\"name\":\"region\",\"paths\":[[\"Lyon\",\"South\"],[\"Nice\",\"South\"],[\"Paris\",\"North\"]]},{\"levels\":[\"month\",\"quarter\"],\"name\":\"time\",\"paths\":[[\"Jan\",\"Q1\"],[\"Feb\",\"Q1\"]]}],\"facts\":5,\"measures\":[{\"decimals\":0,\"method\":\"lattice\",\"name\":\"pay\"},{\"decimals\":0,\"method\":\"parity\",\"name\":\"hours\"}],\"points\":5}" }
{}
