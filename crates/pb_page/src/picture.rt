//! The pictures of shares. They show no figure of the election: what they mean stands below them.

/// Four equal shares of a budget, and below them what the winners cost, which is not more.
pub(crate) const OPENING_SHARES: &str =
    "<svg class='shares' viewBox='0 0 120 26' aria-hidden='true'>
<rect class='share' x='0' y='1' width='19' height='10'/>
<rect class='share' x='20' y='1' width='19' height='10'/>
<rect class='share' x='40' y='1' width='19' height='10'/>
<rect class='share' x='60' y='1' width='19' height='10'/>
<rect class='winners' x='0' y='15' width='62' height='10'/>
<rect class='budget' x='79' y='0' width='1' height='26'/>
</svg>
";

/// The same with shares that have grown, above what the winners cost.
pub(crate) const GROWN_SHARES: &str = "<svg class='shares' viewBox='0 0 120 40' aria-hidden='true'>
<rect class='share' x='0' y='1' width='19' height='10'/>
<rect class='share' x='20' y='1' width='19' height='10'/>
<rect class='share' x='40' y='1' width='19' height='10'/>
<rect class='share' x='60' y='1' width='19' height='10'/>
<rect class='share' x='0' y='15' width='19' height='10'/>
<rect class='raise' x='19' y='15' width='8' height='10'/>
<rect class='share' x='28' y='15' width='19' height='10'/>
<rect class='raise' x='47' y='15' width='8' height='10'/>
<rect class='share' x='56' y='15' width='19' height='10'/>
<rect class='raise' x='75' y='15' width='8' height='10'/>
<rect class='share' x='84' y='15' width='19' height='10'/>
<rect class='raise' x='103' y='15' width='8' height='10'/>
<rect class='winners' x='0' y='29' width='74' height='10'/>
<rect class='budget' x='79' y='0' width='1' height='40'/>
</svg>
";
