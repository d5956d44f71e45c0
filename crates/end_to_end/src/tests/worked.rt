//! Inputs and texts of worked examples.

/// One sample of `main`, weight 7, which stands before its tables.
pub(super) const SMALLEST: &[u8] = &[
    0x0a, 0x04, 0x08, 0x01, 0x10, 0x02, 0x12, 0x06, 0x0a, 0x01, 0x01, 0x12, 0x01, 0x07, 0x22, 0x06,
    0x08, 0x01, 0x22, 0x02, 0x08, 0x01, 0x2a, 0x04, 0x08, 0x01, 0x10, 0x03, 0x32, 0x00, 0x32, 0x03,
    0x63, 0x70, 0x75, 0x32, 0x02, 0x6e, 0x73, 0x32, 0x04, 0x6d, 0x61, 0x69, 0x6e,
];

/// `memcpy` at line 12 inlined into `printf` at line 40.
pub(super) const INLINED_LINES: &[u8] = &[
    0x0a, 0x04, 0x08, 0x01, 0x10, 0x02, 0x12, 0x06, 0x0a, 0x01, 0x01, 0x12, 0x01, 0x07, 0x22, 0x0e,
    0x08, 0x01, 0x22, 0x04, 0x08, 0x01, 0x10, 0x0c, 0x22, 0x04, 0x08, 0x02, 0x10, 0x28, 0x2a, 0x04,
    0x08, 0x01, 0x10, 0x03, 0x2a, 0x04, 0x08, 0x02, 0x10, 0x04, 0x32, 0x00, 0x32, 0x03, 0x63, 0x70,
    0x75, 0x32, 0x02, 0x6e, 0x73, 0x32, 0x06, 0x6d, 0x65, 0x6d, 0x63, 0x70, 0x79, 0x32, 0x06, 0x70,
    0x72, 0x69, 0x6e, 0x74, 0x66,
];

/// Two sample types, `n` and `cpu`, and one sample of `f` with the values 5 and 9.
pub(super) const BASE: &[u8] = &[
    0x0a, 0x04, 0x08, 0x01, 0x10, 0x01, 0x0a, 0x04, 0x08, 0x02, 0x10, 0x02, 0x12, 0x07, 0x0a, 0x01,
    0x01, 0x12, 0x02, 0x05, 0x09, 0x22, 0x06, 0x08, 0x01, 0x22, 0x02, 0x08, 0x01, 0x2a, 0x04, 0x08,
    0x01, 0x10, 0x03, 0x32, 0x00, 0x32, 0x01, 0x6e, 0x32, 0x03, 0x63, 0x70, 0x75, 0x32, 0x01, 0x66,
];

/// Three samples, one of which draws nothing.
pub(super) const THREE_LINES: &[u8] = b"a 1\nc 0\nb 2\n";

/// Their flame graph, 10 pixels wide.
pub(super) const GRAPH_OF_THREE_LINES: &str = "{\"boxes\":[\
    {\"depth\":0,\"left\":0,\"name\":\"all\",\"own\":0,\"right\":10,\"start\":0,\"weight\":3},\
    {\"depth\":1,\"left\":0,\"name\":\"a\",\"own\":1,\"right\":3,\"start\":0,\"weight\":1},\
    {\"depth\":1,\"left\":3,\"name\":\"b\",\"own\":2,\"right\":10,\"start\":1,\"weight\":2}],\
    \"total\":3,\"view\":\"graph\",\"width\":10}\n";

/// Their flame chart, 10 pixels wide.
pub(super) const CHART_OF_THREE_LINES: &str = "{\"boxes\":[\
    {\"depth\":0,\"left\":0,\"name\":\"all\",\"own\":0,\"right\":10,\"start\":0,\"weight\":3},\
    {\"depth\":1,\"left\":0,\"name\":\"a\",\"own\":1,\"right\":3,\"start\":0,\"weight\":1},\
    {\"depth\":1,\"left\":3,\"name\":\"b\",\"own\":2,\"right\":10,\"start\":1,\"weight\":2}],\
    \"total\":3,\"view\":\"chart\",\"width\":10}\n";

/// The two profiles of a comparison.
pub(super) const BEFORE: &[u8] = b"a 3\nb 1\n";

pub(super) const AFTER: &[u8] = b"a 1\nc 2\n";

/// Their stacks side by side.
pub(super) const COMPARISON_LINES: &str = "a 3 1\nb 1 0\nc 0 2\n";

/// The flame graph of the second, 10 pixels wide, with the weights of the first.
pub(super) const COMPARISON_BOXES: &str = "{\"before\":4,\"boxes\":[\
    {\"before\":4,\"depth\":0,\"left\":0,\"name\":\"all\",\"own\":0,\"right\":10,\"start\":0,\
    \"weight\":3},\
    {\"before\":3,\"depth\":1,\"left\":0,\"name\":\"a\",\"own\":1,\"right\":3,\"start\":0,\
    \"weight\":1},\
    {\"before\":0,\"depth\":1,\"left\":3,\"name\":\"c\",\"own\":2,\"right\":10,\"start\":1,\
    \"weight\":2}],\"total\":3,\"view\":\"compare\",\"width\":10}\n";

/// Their functions, by the change of their own weight.
pub(super) const CHANGES: &str = "\
Showing 3 of 3 functions, total 4 before, 3 after
own before  after  change  total before  after  change  name
         3      1      -2             3      1      -2  a
         0      2      +2             0      2      +2  c
         1      0      -1             1      0      -1  b
";

/// The function of the greatest change of its total.
pub(super) const GREATEST_CHANGE: &str = "{\"functions\":[\
    {\"name\":\"a\",\"own_after\":1,\"own_before\":3,\"total_after\":1,\"total_before\":3}],\
    \"total_after\":3,\"total_before\":4,\"unit\":\"\",\"view\":\"diff\"}\n";

/// A name that calls itself, one that stands twice, a stack without frames, and one without weight.
pub(super) const CALLS: &[u8] = b"main;f;g 3\nmain;f;f 2\nmain 1\nmain;h 2\nz 0\n 4\nf;g;f;g 1\n";

/// Its functions, by their own weight.
pub(super) const FUNCTIONS: &str = "Showing 4 of 4 functions, total 13
own    own%    sum%  total  total%  name
  4  30.77%  30.77%      4  30.77%  g
  2  15.38%  46.15%      6  46.15%  f
  2  15.38%  61.54%      2  15.38%  h
  1   7.69%  69.23%      8  61.54%  main
";

/// Its two functions with the greatest totals.
pub(super) const GREATEST_TOTALS: &str = "{\"functions\":[\
    {\"name\":\"main\",\"own\":1,\"total\":8},\
    {\"name\":\"f\",\"own\":2,\"total\":6}],\"total\":13,\"unit\":\"\",\"view\":\"top\"}\n";

/// Five samples of one source.
pub(super) const FIVE_LINES: &[u8] = b"a 1\na;b 1\nc 2\na 1\nd 1\n";

/// Their flame graph, 10 pixels wide, after the snapshots at 2 and at 4.
pub(super) const SNAPSHOT_LINES: &str = "{\"at\":2,\"boxes\":[\
    {\"depth\":0,\"left\":0,\"name\":\"all\",\"own\":0,\"right\":10,\"start\":0,\"weight\":2},\
    {\"depth\":1,\"left\":0,\"name\":\"a\",\"own\":1,\"right\":10,\"start\":0,\"weight\":2},\
    {\"depth\":2,\"left\":5,\"name\":\"b\",\"own\":1,\"right\":10,\"start\":1,\"weight\":1}],\
    \"counts\":[2],\"total\":2,\"view\":\"snapshot\",\"width\":10}\n\
    {\"at\":4,\"boxes\":[\
    {\"depth\":0,\"left\":0,\"name\":\"all\",\"own\":0,\"right\":10,\"start\":0,\"weight\":5},\
    {\"depth\":1,\"left\":0,\"name\":\"a\",\"own\":2,\"right\":6,\"start\":0,\"weight\":3},\
    {\"depth\":2,\"left\":4,\"name\":\"b\",\"own\":1,\"right\":6,\"start\":2,\"weight\":1},\
    {\"depth\":1,\"left\":6,\"name\":\"c\",\"own\":2,\"right\":10,\"start\":3,\"weight\":2}],\
    \"counts\":[4],\"total\":5,\"view\":\"snapshot\",\"width\":10}\n\
    {\"boxes\":[\
    {\"depth\":0,\"left\":0,\"name\":\"all\",\"own\":0,\"right\":10,\"start\":0,\"weight\":6},\
    {\"depth\":1,\"left\":0,\"name\":\"a\",\"own\":2,\"right\":5,\"start\":0,\"weight\":3},\
    {\"depth\":2,\"left\":3,\"name\":\"b\",\"own\":1,\"right\":5,\"start\":2,\"weight\":1},\
    {\"depth\":1,\"left\":5,\"name\":\"c\",\"own\":2,\"right\":8,\"start\":3,\"weight\":2},\
    {\"depth\":1,\"left\":8,\"name\":\"d\",\"own\":1,\"right\":10,\"start\":5,\"weight\":1}],\
    \"total\":6,\"view\":\"graph\",\"width\":10}\n";
