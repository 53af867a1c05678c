//! What a document begins with.

/// How it looks, that nothing is loaded with it, and that nothing runs in it.
pub(crate) const FRONT: &str = "<!doctype html><html lang=\"en\"><head><meta charset=\"utf-8\">\
    <meta name=\"viewport\" content=\"width=device-width,initial-scale=1\">\
    <meta http-equiv=\"Content-Security-Policy\" content=\"default-src 'none'; style-src 'unsafe-inline'\">\
    <meta name=\"color-scheme\" content=\"light dark\"><title>hcache report</title><style>:root{--bg:#fff;\
    --fg:#1b1d1f;--dim:#5c6166;--line:#d9dce0;--bad:#b3140f;--soft:#fdf0ef;--new:#1f5a9c;--old:#8a4b00;--ok:#1c6b3a}\
    @media(prefers-color-scheme:dark){:root{--bg:#15171a;--fg:#e4e6e8;--dim:#a3a9b0;--line:#33383e;--bad:#ff8a82;\
    --soft:#2b1b1b;--new:#7db4f5;--old:#e0a040;--ok:#7cc796}}*{box-sizing:border-box}\
    html{font:15px/1.5 system-ui,sans-serif;color:var(--fg);background:var(--bg)}body{max-width:68rem;margin:0 auto;\
    padding:1.5rem 1.25rem 3rem;overflow-wrap:anywhere}\
    code,.line,.log,.settings dt{font-family:ui-monospace,Menlo,Consolas,\"DejaVu Sans Mono\",monospace;\
    font-size:.87rem}a{color:var(--new)}b:target{background:var(--bad);color:var(--bg)}h1{font-size:1.75rem;\
    line-height:1.2;margin:.25rem 0}h2{font-size:1.15rem;margin:2.25rem 0 .5rem;padding-top:.5rem;\
    border-top:1px solid var(--line)}h3{font-size:1rem;margin:1.5rem 0 0}p{margin:.25rem 0}\
    .asked::first-letter{text-transform:uppercase}.no,.broken{color:var(--bad)}.yes{color:var(--ok)}\
    .note,dt,time{color:var(--dim)}dl{margin:.5rem 0}dd{margin:0}.counts{display:flex;flex-wrap:wrap;\
    gap:.25rem 2rem}.counts dd{font-size:1.15rem;font-variant-numeric:tabular-nums}.settings div{display:grid;\
    grid-template-columns:14rem 1fr;gap:0 1rem}.must,.stated,.should,.own{font-size:.75rem;font-weight:600;\
    border:1px solid;border-radius:3px;padding:0 .3rem}.must{color:var(--bad)}.stated,.should{color:var(--old)}\
    .own{color:var(--dim)}ul,ol{list-style:none;margin:.25rem 0;padding:0}.groups li{display:grid;\
    grid-template-columns:3rem 1fr;gap:0 .75rem}.count{text-align:right;font-weight:600;\
    font-variant-numeric:tabular-nums}.target{border-top:1px solid var(--line);padding:.3rem 0}\
    summary{cursor:pointer}.positions{margin-left:1rem;color:var(--bad)}.why{border-left:2px solid var(--bad);\
    padding-left:.75rem;margin:.75rem 0}.why h3{margin:0}.line{white-space:pre-wrap;padding-left:16ch;\
    text-indent:-16ch}body>.line{padding:0;text-indent:0;margin:0}.log{margin:.75rem 0}.log li{display:grid;\
    grid-template-columns:1.2rem 7rem 10.5rem 1fr;gap:0 .6rem;padding:.1rem 0}.log li::before{text-align:center}\
    .log .response::before{content:\"\\25cb\";color:var(--new)}.log .validation::before{content:\"\\25c7\";\
    color:var(--new)}.log .invalidation::before{content:\"\\25ac\";color:var(--bad)}\
    .log .failure::before{content:\"\\25a1\";color:var(--old)}.log .hit::before{content:\"\\2022\"}\
    .log .other::before{content:\"\\b7\"}.log .wrong{background:var(--soft);color:var(--bad)}\
    .log .wrong::before{content:\"\\2715\"}.log .note{display:block}\
    @media(max-width:42rem){body{padding:1rem .9rem 2rem}h1{font-size:1.4rem}.settings div{display:block;\
    margin:.4rem 0}.line{padding-left:2ch;text-indent:-2ch}.log li{grid-template-columns:1.2rem auto 1fr}\
    .log li span:last-child{grid-column:2/4}}@media print{details::details-content{content-visibility:visible;\
    display:block;height:auto}a{color:inherit}}</style></head><body>";
