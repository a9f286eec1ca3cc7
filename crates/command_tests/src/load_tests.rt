// The script of two stages, written by hand.
use load_maker::make;
use std::test::Fail;

const TWO_STAGES: &str = "edit\n\
    top top\n\
    clock clk\n\
    file stage.v\n\
    module stage(input clk, input [31:0] d, output [31:0] q);\n\
    reg [31:0] r;\n\
    always @(posedge clk) r <= r + d;\n\
    assign q = r;\n\
    endmodule\n\
    .\n\
    file top.v\n\
    module top(input clk, input [31:0] d, output [31:0] q);\n\
    wire [31:0] w0 = d;\n\
    wire [31:0] w1;\n\
    stage s1(clk, w0, w1);\n\
    wire [31:0] w2;\n\
    stage s2(clk, w1, w2);\n\
    assign q = w2;\n\
    endmodule\n\
    .\n\
    end\n\
    set d=1\n\
    run 1000\n\
    edit\n\
    file stage.v\n\
    module stage(input clk, input [31:0] d, output [31:0] q);\n\
    reg [31:0] r;\n\
    always @(posedge clk) r <= d + r;\n\
    assign q = r;\n\
    endmodule\n\
    .\n\
    end\n\
    settle\n\
    show top.s2.\n\
    quit\n";

#[test]
fn scripts(rt: HostRuntime) -> Result<(), Fail> {
    let rows = [(2, TWO_STAGES)];
    for (stages, script) in rows {
        assert_eq!(rt; make(rt.alloc(), stages)?.as_slice(), script.as_bytes());
    }
    Ok(())
}
